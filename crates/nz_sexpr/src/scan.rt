//! The state of a reader between bytes, and its steps.
ghost use Rattle.std.specs.Prelude.{◌≡◌, ◌≢◌, ◌≤◌, ◌<◌, ◌+◌, ◌-◌, ◌^◌, ◌++◌, ◌||◌, ℕ, List, [], ◌∷◌, length, take, slice_index, is_none, nat_lt, min, true, Some, None, IfSome};
ghost use Rattle.nz_script.specs.text.Text.{Limits as Bounds, class_of, HasNone};
ghost use Rattle.nz_script.specs.text.ToldAs.{IsToldWhat, AreToldAs};
ghost use Rattle.nz_script.specs.text.Reading as text_part;
ghost use Rattle.nz_script.specs.text.Reading.{Reading, reading_start, opened, closed, begun, goes_on, taken, told_closed, told_token, next_outside, told_outside, next, told_at, read_on, told_open, what_of};
ghost use Rattle.nz_script.specs.text.Tree as text;
ghost use Rattle.nz_sexpr.specs.Part.{part_of, text_of_part, text_after, filler_of, ends, begins_here};
ghost use Rattle.nz_sexpr.specs.Store.{OpenCommand, kept_of, Keeps, TakesToken};
ghost use Rattle.nz_sexpr.specs.View.{what_view};
ghost use Rattle.nz_sexpr.specs.Matches.{Matches, Follows, Tells, GoesOnBy, EndsWithin, told, limits_view, is_quiet_at};

use crate::bytes::{Kind, kind_of};
use crate::heard::{Heard, Limits, What};
use crate::part::Part;
use crate::store::Store;
use crate::tree::Tree;
use crate::words::TokenKind;
use nz_base::Error;
use std::alloc::Global;

/// What is open after the bytes that were read.
#[derive(Debug, Drop)]
pub(crate) struct Scan {
    limits: Limits,
    /// How many bytes were read.
    at: u64,
    /// Where the thing begins that is open.
    from: u64,
    /// What is being read that may have more bytes than one.
    part: Part,
    /// How many lists are open; outside any command none is.
    depth: u64,
    /// A token of the command is bad.
    bad: bool,
    /// Its lists nest too deep.
    deep: bool,
    store: Store,
}

impl Scan {
    /// The beginning of a script.
    pub(crate) fn new(alloc: Global, limits: Limits) -> Self
        ensures state { Matches (limits_view limits) result reading_start }
    {
        Scan {
            limits,
            at: 0,
            from: 0,
            part: Part::Absent,
            depth: 0,
            bad: false,
            deep: false,
            store: Store::new(alloc),
        }
    }

    /// How many bytes at the front go on with what is being read, or begin a word.
    pub(crate) fn run(&self, bytes: &[u8]) -> usize
        ensures bound { result ≤ length bytes.now }
        ensures within { HasNone (ends self.now.part) (take result bytes.now) }
        ensures longest { result < length bytes.now → ends self.now.part (slice_index bytes.now result) ≡ true }
    {
        self.part.run(bytes)
    }

    /// Reads bytes that go on with what is being read, or begin a word.
    pub(crate) fn read_run(&mut self, run: &[u8])
        requires { 0 < length run.now }
        ensures state { HasNone (ends self.old.part) run.now → Follows self.old self.new (length run.now) (λ s. read_on s run.now) }
        ensures counted { GoesOnBy self.old.at (length run.now) self.new.at }
    {
        self.begin_part();
        self.keep_run(run);
        self.part = self.part.after_run(run);
        self.pass(run.len() as u64);
        self.forget_if(self.is_long());
    }

    /// A part begins here, if none is open; outside any command it is a thing.
    fn begin_part(&mut self)
        ensures { self.new ≡ record self.old { from = begins_here self.old.part self.old.depth self.old.at self.old.from } }
    {
        if self.part == Part::Absent && self.depth == 0 {
            self.from = self.at;
        }
    }

    /// Keeps a run of a token's bytes, and none of a comment's.
    fn keep_run(&mut self, run: &[u8])
        ensures rest { self.new ≡ record self.old { store = self.new.store } }
        ensures kept { Keeps (kept_of self.old.store) (kept_of self.new.store) (λ (k : OpenCommand). record k { text = text_after self.old.part k.text run.now }) }
    {
        if self.part.is_of_token() {
            self.store.extend_text(run);
        }
    }

    /// Keeps nothing more of the command where it can't be whole.
    fn forget_if(&mut self, hopeless: bool)
        ensures state { (limits : Bounds) (s : Reading) → Matches limits self.old s → Matches limits self.new s }
        ensures counted { self.new.at ≡ self.old.at }
    {
        if hopeless {
            self.store.stop();
        }
    }

    /// Whether nothing is heard at this byte, if a run of bytes ends there: no command and no token outside any ends.
    pub(crate) fn is_quiet(&self, byte: u8) -> bool
        ensures { result ≡ is_quiet_at self.now.part self.now.depth byte }
    {
        if byte == b')' {
            self.depth > 1
        } else {
            self.depth > 0 || self.part.is_no_token()
        }
    }

    /// Reads a byte at which a run of bytes ends and nothing is heard.
    ///
    /// Most bytes of a script are such: they hand no room for things heard from call to call.
    pub(crate) fn read_quietly(&mut self, byte: u8)
        requires ends { ends self.old.part byte ≡ true }
        requires quiet { is_quiet_at self.old.part self.old.depth byte ≡ true }
        ensures state { Follows self.old self.new 1 (λ s. next byte s) }
        ensures heard { Tells self.old 1 [] (λ limits s. told_at limits byte s) }
        ensures counted { GoesOnBy self.old.at 1 self.new.at }
    {
        match self.part {
            Part::Absent => self.pass_outside(byte),
            Part::Comment => self.go_on(Part::Absent),
            Part::Word(_) => self.pass_after_token(byte),
            Part::String(clean) => self.go_on(Part::AfterQuote(clean)),
            Part::AfterQuote(clean) if byte == b'"' => self.read_doubled_quote(clean),
            Part::AfterQuote(_) => self.pass_after_token(byte),
            Part::Quoted(_) => {
                self.pass(1);
                self.end_part();
            }
        }
    }

    /// Reads the byte after a token, where no command ends.
    fn pass_after_token(&mut self, byte: u8)
        requires goes_on { byte ≡ 41 → 1 < self.old.depth }
        ensures state { (limits : Bounds) (s : Reading) → Matches limits self.old s → s.at + 1 < 2 ^ 64 →
            IfSome (filler_of s.part) (λ f. Matches limits self.new (next_outside (class_of byte) byte (taken f s))) }
        ensures counted { GoesOnBy self.old.at 1 self.new.at }
    {
        self.end_part();
        self.pass_outside(byte);
    }

    /// Reads a byte at which a run of bytes ends: what is heard, at most two things.
    pub(crate) fn read_byte(&mut self, byte: u8) -> (Option<Heard>, Option<Heard>)
        requires { ends self.old.part byte ≡ true }
        ensures state { Follows self.old self.new 1 (λ s. next byte s) }
        ensures heard { Tells self.old 1 (told result.0 ++ told result.1) (λ limits s. told_at limits byte s) }
        ensures first { result.0 ≡ None → result.1 ≡ None }
        ensures counted { GoesOnBy self.old.at 1 self.new.at }
        ensures places { EndsWithin self.old.at self.new.at result.0 × EndsWithin self.old.at self.new.at result.1 }
    {
        match self.part {
            Part::Absent => (self.read_outside(byte), None),
            Part::Comment => {
                self.go_on(Part::Absent);
                (None, None)
            }
            Part::Word(_) => self.read_after_token(byte),
            Part::String(clean) => {
                self.go_on(Part::AfterQuote(clean));
                (None, None)
            }
            Part::AfterQuote(clean) if byte == b'"' => {
                self.read_doubled_quote(clean);
                (None, None)
            }
            Part::AfterQuote(_) => self.read_after_token(byte),
            Part::Quoted(_) => {
                self.pass(1);
                (self.end_token(), None)
            }
        }
    }

    /// Reads a byte with which the part is this one.
    fn go_on(&mut self, part: Part)
        ensures state { self.new ≡ record self.old { at = min (self.old.at + 1) (2 ^ 64 - 1); part = part } }
        ensures counted { GoesOnBy self.old.at 1 self.new.at }
    {
        self.part = part;
        self.pass(1);
    }

    /// Reads the second of two quotes, which stand for one.
    fn read_doubled_quote(&mut self, clean: bool)
        requires { self.old.part ≡ Part.AfterQuote clean }
        ensures state { (limits : Bounds) (s : Reading) (w : List ℕ) → Matches limits self.old s → s.at + 1 < 2 ^ 64 →
            s.part ≡ text_part.after_quote w → Matches limits self.new (goes_on (text_part.in_string (w ++ 34 ∷ [])) s) }
        ensures counted { GoesOnBy self.old.at 1 self.new.at }
    {
        self.store.extend_text(b"\"".as_slice());
        self.go_on(Part::String(clean));
        self.forget_if(self.is_long());
    }

    /// Reads the byte after a token: what is heard, at most two things.
    fn read_after_token(&mut self, byte: u8) -> (Option<Heard>, Option<Heard>)
        ensures state { (limits : Bounds) (s : Reading) → Matches limits self.old s → s.at + 1 < 2 ^ 64 →
            IfSome (filler_of s.part) (λ f. Matches limits self.new (next_outside (class_of byte) byte (taken f s))) }
        ensures heard { (limits : Bounds) (s : Reading) → Matches limits self.old s → s.at + 1 < 2 ^ 64 →
            IfSome (filler_of s.part) (λ f. AreToldAs (told result.0 ++ told result.1) (told_token s ++ told_outside (class_of byte) limits (taken f s))) }
        ensures first { result.0 ≡ None → result.1 ≡ None }
        ensures counted { GoesOnBy self.old.at 1 self.new.at }
        ensures places { EndsWithin self.old.at self.new.at result.0 × EndsWithin self.old.at self.new.at result.1 }
    {
        let ended = self.end_token();
        let heard = self.read_outside(byte);
        match ended {
            Some(token) => (Some(token), heard),
            None => (heard, None),
        }
    }

    /// The token that was being read ends; outside any command it is told.
    fn end_token(&mut self) -> Option<Heard>
        ensures state { (limits : Bounds) (s : Reading) → Matches limits self.old s → IfSome (filler_of s.part) (λ f. Matches limits self.new (taken f s)) }
        ensures heard { Tells self.old 0 (told result) (λ _ s. told_token s) }
        ensures absent { self.new.part ≡ Part.Absent }
        ensures counted { self.new.at ≡ self.old.at }
        ensures places { EndsWithin self.old.at self.old.at result }
    {
        self.end_part();
        if self.depth == 0 {
            Some(bad_token(self.from, self.at))
        } else {
            None
        }
    }

    /// The token that was being read ends, in a command or outside any.
    fn end_part(&mut self)
        ensures state { (limits : Bounds) (s : Reading) → Matches limits self.old s → IfSome (filler_of s.part) (λ f. Matches limits self.new (taken f s)) }
        ensures rest { self.new ≡ record self.old { part = Part.Absent; bad = self.new.bad; store = self.new.store } }
    {
        let token = self.part.token();
        self.part = Part::Absent;
        if self.depth == 0 {
            return;
        }
        self.take_token(token);
    }

    /// A token of the command ends, of this kind or bad.
    fn take_token(&mut self, token: Option<TokenKind>)
        ensures rest { self.new ≡ record self.old { bad = self.old.bad || is_none token; store = self.new.store } }
        ensures kept { TakesToken token (kept_of self.old.store) (kept_of self.new.store) }
    {
        match token {
            Some(kind) => self.store.end_token(kind),
            None => {
                self.bad = true;
                self.store.stop();
            }
        }
    }

    /// Reads a byte where no part is open.
    fn read_outside(&mut self, byte: u8) -> Option<Heard>
        requires { self.old.part ≡ Part.Absent }
        ensures state { Follows self.old self.new 1 (λ s. next_outside (class_of byte) byte s) }
        ensures heard { Tells self.old 1 (told result) (λ limits s. told_outside (class_of byte) limits s) }
        ensures counted { GoesOnBy self.old.at 1 self.new.at }
        ensures places { EndsWithin self.old.at self.new.at result }
    {
        if byte == b')' {
            return self.close();
        }
        self.pass_outside(byte);
        None
    }

    /// Reads a byte where no part is open and no command ends.
    fn pass_outside(&mut self, byte: u8)
        requires absent { self.old.part ≡ Part.Absent }
        requires goes_on { byte ≡ 41 → 1 < self.old.depth }
        ensures state { Follows self.old self.new 1 (λ s. next_outside (class_of byte) byte s) }
        ensures counted { GoesOnBy self.old.at 1 self.new.at }
    {
        match kind_of(byte) {
            Kind::Left => self.open(),
            Kind::Right => self.close_list(),
            Kind::Comment => self.begin(Part::Comment),
            Kind::Quote => self.begin(Part::String(true)),
            Kind::Bar => self.begin(Part::Quoted(true)),
            Kind::Blank => self.pass(1),
            Kind::Word => self.read_run([byte].as_slice()),
        }
    }

    /// Reads the byte with which a part begins that has no text yet.
    fn begin(&mut self, part: Part)
        requires { self.old.part ≡ Part.Absent }
        ensures state { (limits : Bounds) (s : Reading) (p : text_part.Part) → Matches limits self.old s → s.at + 1 < 2 ^ 64 →
            part ≡ part_of p → text_of_part p ≡ [] → Matches limits self.new (begun p s) }
        ensures counted { GoesOnBy self.old.at 1 self.new.at }
    {
        self.begin_part();
        self.go_on(part);
    }

    /// Reads `(`.
    fn open(&mut self)
        ensures state { (limits : Bounds) (s : Reading) → Matches limits self.old s → s.part ≡ text_part.no_part → s.at + 1 < 2 ^ 64 → Matches limits self.new (opened s) }
        ensures counted { GoesOnBy self.old.at 1 self.new.at }
    {
        if self.depth == 0 {
            self.open_command();
        } else {
            self.open_list();
        }
        self.forget_if(self.deep || self.is_long());
    }

    /// Reads the `(` of a command.
    fn open_command(&mut self)
        requires { self.old.depth ≡ 0 }
        ensures state { (limits : Bounds) (s : Reading) → Matches limits self.old s → s.part ≡ text_part.no_part → s.at + 1 < 2 ^ 64 → Matches limits self.new (opened s) }
        ensures counted { GoesOnBy self.old.at 1 self.new.at }
    {
        self.from = self.at;
        self.depth = 1;
        self.bad = false;
        self.deep = self.limits.depth < 1;
        self.store.begin();
        self.pass(1);
    }

    /// Reads the `(` of a list in a command.
    fn open_list(&mut self)
        requires { 0 < self.old.depth }
        ensures state { Follows self.old self.new 1 opened }
        ensures counted { GoesOnBy self.old.at 1 self.new.at }
    {
        self.depth = self.depth.saturating_add(1);
        self.deep = self.deep || (self.limits.depth as u64) < self.depth;
        self.store.open();
        self.pass(1);
    }

    /// Reads `)`.
    fn close(&mut self) -> Option<Heard>
        ensures state { Follows self.old self.new 1 closed }
        ensures heard { Tells self.old 1 (told result) told_closed }
        ensures counted { GoesOnBy self.old.at 1 self.new.at }
        ensures places { EndsWithin self.old.at self.new.at result }
    {
        match self.depth {
            0 => {
                let at = self.at;
                self.pass(1);
                Some(bad_token(at, self.at))
            }
            1 => Some(self.close_command()),
            _ => {
                self.close_list();
                None
            }
        }
    }

    /// Reads the `)` of a command.
    fn close_command(&mut self) -> Heard
        requires { self.old.depth ≡ 1 }
        ensures state { Follows self.old self.new 1 closed }
        ensures heard { Tells self.old 1 (told (Some result)) told_closed }
        ensures counted { GoesOnBy self.old.at 1 self.new.at }
        ensures places { (self.old.at ≤ result.to) × (result.to ≡ self.new.at) }
    {
        self.pass(1);
        let what = self.take_command();
        self.depth = 0;
        Heard {
            from: self.from,
            to: self.at,
            what,
        }
    }

    /// Reads the `)` of a list in a command.
    fn close_list(&mut self)
        requires { 1 < self.old.depth }
        ensures state { Follows self.old self.new 1 closed }
        ensures heard { Tells self.old 1 [] told_closed }
        ensures counted { GoesOnBy self.old.at 1 self.new.at }
    {
        self.depth -= 1;
        self.store.close();
        self.pass(1);
        self.forget_if(self.is_long());
    }

    /// What the command is whose last byte was read.
    fn take_command(&mut self) -> What
        ensures what { (limits : Bounds) (s : Reading) (l : List text.Tree) → Matches limits self.old s → s.levels ≡ l ∷ [] → IsToldWhat (what_view result) (what_of limits l s) }
        ensures rest { self.new ≡ record self.old { store = self.new.store } }
        ensures ended { kept_of self.new.store ≡ None }
    {
        let list = self.store.end();
        if self.bad {
            return What::Bad(Error::Syntax);
        }
        if self.deep || self.is_long() {
            return What::Bad(Error::Limit);
        }
        match list {
            Some(list) => What::Tree(Tree::List(list)),
            None => What::Unread,
        }
    }

    /// The command has more bytes so far than it may have.
    fn is_long(&self) -> bool
        ensures { result ≡ nat_lt self.now.limits.bytes (self.now.at - self.now.from) }
    {
        self.limits.bytes < self.at.saturating_sub(self.from)
    }

    /// Counts bytes that were read.
    fn pass(&mut self, count: u64)
        ensures later { self.old.at ≤ self.new.at }
        ensures counted { self.new ≡ record self.old { at = min (self.old.at + count) (2 ^ 64 - 1) } }
    {
        self.at = self.at.saturating_add(count);
    }

    /// What the end of the input makes of what is open; the beginning of a script is next.
    pub(crate) fn finish(&mut self) -> Option<Heard>
        ensures heard { Tells self.old 0 (told result) (λ _ s. told_open s) }
        ensures restarted { (limits : Bounds) (s : Reading) → Matches limits self.old s → Matches limits self.new reading_start }
    {
        let heard = self.end_open();
        self.restart();
        heard
    }

    /// What the end of the input makes of what is open.
    fn end_open(&self) -> Option<Heard>
        ensures heard { Tells self.now 0 (told result) (λ _ s. told_open s) }
    {
        if self.depth > 0 {
            return Some(self.unclosed());
        }
        match self.part {
            Part::Absent | Part::Comment => None,
            Part::Word(_) | Part::AfterQuote(_) => Some(bad_token(self.from, self.at)),
            Part::String(_) | Part::Quoted(_) => Some(self.unclosed()),
        }
    }

    /// What is open at the end of the input.
    fn unclosed(&self) -> Heard
        ensures { result ≡ record { from = self.now.from; to = self.now.at; what = What.Unclosed } }
    {
        Heard {
            from: self.from,
            to: self.at,
            what: What::Unclosed,
        }
    }

    /// Stands at the beginning of a script again.
    fn restart(&mut self)
        ensures state { (limits : Bounds) (s : Reading) → Matches limits self.old s → Matches limits self.new reading_start }
    {
        self.at = 0;
        self.from = 0;
        self.part = Part::Absent;
        self.depth = 0;
        self.bad = false;
        self.deep = false;
        self.store.stop();
    }
}

fn bad_token(from: u64, to: u64) -> Heard
    ensures { result ≡ record { from = from; to = to; what = What.Bad Error.Syntax } }
{
    Heard {
        from,
        to,
        what: What::Bad(Error::Syntax),
    }
}
