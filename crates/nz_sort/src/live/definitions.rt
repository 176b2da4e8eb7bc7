//! Definitions of names.
ghost use Rattle.std.specs.Prelude.{◌≡◌, map, OnOk, OnErr, IfOk, IfErr, IfSome, None};
ghost use Rattle.nz_spec.specs.terms.Order.{HasCompanions};
ghost use Rattle.nz_script.specs.commands.Request as requests;
ghost use Rattle.nz_script.specs.live.Live.{State};
ghost use Rattle.nz_script.specs.commands.Command.{refused};
ghost use Rattle.nz_script.specs.commands.Script.{definition_of};
ghost use Rattle.nz_command.specs.View.{view as written};
ghost use Rattle.nz_command.specs.Requests.{sort_view, parameter_view};
ghost use Rattle.nz_elaborate.specs.Names.{named_by};
ghost use Rattle.nz_elaborate.specs.Typed.{Grows};
ghost use Rattle.nz_sort.specs.Live.{IsLive};
ghost use Rattle.nz_sort.specs.Acts.{rule_of, redeclared_by};
ghost use Rattle.nz_sort.specs.Changes.{Comes, Defines, with_definition};

use super::{Live, number_after};
use crate::acts::Act;
use nz_base::{Error, Memory, Text};
use nz_command::{Expression, Parameter, WrittenSort};
use nz_elaborate::{Definition, ElaborateError, Named, elaborate_body};
use nz_script::elaboration::terms_fit;
use nz_spec::table::term_stays;
use nz_term::{Terms, add_companions, grows_twice};

impl Live {
    /// Defines a name.
    pub(super) fn define<'a>(
        &mut self,
        terms: &mut Terms,
        name: &Text,
        parameters: &[Parameter<'a>],
        sort: &WrittenSort,
        body: &Expression<'a>,
    ) -> Result<Act, Error>
        requires live { (s : State) × IsLive terms.old self.old s }
        ensures comes { Comes terms.old terms.new self.old self.new (requests.defines name.now (map parameter_view parameters.now) (sort_view sort.now) (written body.now)) (λ s. definition_of s name.now (map parameter_view parameters.now) (sort_view sort.now) (written body.now)) result }
    {
        term_stays();
        let definition = self.definition(terms, name, parameters, sort, body)?;
        self.add_definition(name, definition)?;
        Ok(Act::Changed)
    }

    /// What is to stand for the name that is defined, and the rules on it, with the companions of what is made.
    fn definition<'a>(
        &self,
        terms: &mut Terms,
        name: &Text,
        parameters: &[Parameter<'a>],
        sort: &WrittenSort,
        body: &Expression<'a>,
    ) -> Result<Definition, Error>
        requires live { (s : State) × IsLive terms.old self.now s }
        ensures grows { Grows terms.old terms.new }
        ensures companions { OnOk result (HasCompanions terms.new) }
        ensures fresh { OnOk result (named_by self.now.names name.now ≡ None) }
        ensures accepted { IfOk result (λ d. (s : State) → IsLive terms.old self.now s → Defines name.now (definition_of s name.now (map parameter_view parameters.now) (sort_view sort.now) (written body.now)) terms.new d) }
        ensures refused { IfErr result (λ refusal. IfSome (rule_of refusal) (λ e. (s : State) → IsLive terms.old self.now s → definition_of s name.now (map parameter_view parameters.now) (sort_view sort.now) (written body.now) ≡ refused e)) }
    {
        grows_twice();
        terms_fit();
        let mark = terms.mark();
        let made = elaborate_body(self.alloc, &self.names, terms, parameters, sort, body);
        if self.names.get(name).is_some() {
            return Err(redeclared(made));
        }
        let definition = made?;
        if !terms.is_linear(definition.body.id) {
            return Err(Error::NotLinear);
        }
        add_companions(self.alloc, terms, mark)?;
        Ok(definition)
    }

    /// Adds a definition of a name that isn't there yet to what stands.
    fn add_definition(&mut self, name: &Text, definition: Definition) -> Result<(), Memory>
        requires fresh { named_by self.old.names name.now ≡ None }
        ensures added { OnOk result (self.new ≡ with_definition self.old name.now definition) }
        ensures unchanged { OnErr result (self.new ≡ self.old) }
    {
        let name = Text::from_slice(self.alloc, name.as_bytes())?;
        self.keep_definition(name, definition)
    }

    /// Keeps a definition of a name that isn't there yet.
    fn keep_definition(&mut self, name: Text, definition: Definition) -> Result<(), Memory>
        requires fresh { named_by self.old.names name ≡ None }
        ensures kept { OnOk result (self.new ≡ with_definition self.old name definition) }
        ensures unchanged { OnErr result (self.new ≡ self.old) }
    {
        let next = number_after(self.next)?;
        self.names.insert(name, Named::Definition(definition))?;
        self.next = next;
        Ok(())
    }
}

/// The error of a definition whose name is declared already, whatever was made of its body: only an unknown symbol comes before.
fn redeclared(made: Result<Definition, ElaborateError>) -> Error
    ensures refusal { result ≡ redeclared_by made }
{
    match made {
        Err(ElaborateError::Unknown) => Error::UnknownSymbol,
        Err(ElaborateError::Memory) => Error::OutOfMemory,
        Err(ElaborateError::Clash) | Err(ElaborateError::Sort) | Ok(_) => Error::AlreadyDeclared,
    }
}
