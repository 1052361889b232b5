ghost use Rattle.std.specs.Prelude.{◌≡◌, ◌++◌, OnOk};
ghost use Rattle.sy_lex.specs.declared.keyword.Keyword.TheVariants as keywords;
ghost use Rattle.sy_print.specs.CanonicalText.{act_text, contract_text, decl_text, first_line, give_text, heading, keyword, oblig_text, param_text, parties_text, power_text, section, sections_text, start_text, trigger_text};
ghost use Rattle.sy_spec.specs.Specifications as grammar;

use super::term::put_target;
use super::writer::{Printed, Writer};
use sy_base::{Memory, TimeUnit};
use sy_lex::{Keyword, Sign, Written};
use sy_spec::{ActTree, ContractTree, DeclTree, GiveTree, ObligTree, ParamTree, PowerTree};
use sy_tree::PropTree;
use sy_words::Verb;

/// The word of a unit.
fn unit_word(unit: TimeUnit) -> Keyword
    ensures { result ≡ grammar.unit_word unit }
{
    match unit {
        TimeUnit::Minute => Keyword::Minute,
        TimeUnit::Hour => Keyword::Hour,
        TimeUnit::Day => Keyword::Day,
    }
}

/// The word of a verb.
fn verb_word(verb: Verb) -> Keyword
    ensures { result ≡ grammar.verb_word verb }
{
    match verb {
        Verb::Suspends => Keyword::Suspends,
        Verb::Resumes => Keyword::Resumes,
        Verb::Discharges => Keyword::Discharges,
        Verb::Terminates => Keyword::Terminates,
        Verb::Triggers => Keyword::Triggers,
    }
}

impl Printed for ParamTree {
    ghost text = { param_text };

    fn put(&self, out: &mut Writer) -> Result<(), Memory> {
        out.token(&self.name)?;
        out.sign(Sign::Colon)?;
        out.token(&self.type_name)
    }
}

impl Printed for GiveTree {
    ghost text = { give_text };

    fn put(&self, out: &mut Writer) -> Result<(), Memory> {
        out.token(&self.name)?;
        out.sign(Sign::Assign)?;
        self.value.put(out)
    }
}

impl Printed for DeclTree {
    ghost text = { decl_text };

    fn put(&self, out: &mut Writer) -> Result<(), Memory> {
        out.token(&self.name)?;
        out.sign(Sign::Colon)?;
        out.token(&self.type_name)?;
        out.with(self.gives.items())
    }
}

/// Writes a trigger and its arrow, or nothing where it is left out.
fn put_trigger(trigger: &Option<PropTree>, out: &mut Writer) -> Result<(), Memory>
    ensures { OnOk result (out.new ≡ out.old ++ trigger_text trigger.now) }
{
    match trigger {
        Some(trigger) => {
            trigger.put(out)?;
            out.sign(Sign::Arrow)
        }
        None => Ok(()),
    }
}

/// Writes what an obligation or a power begins with: its name and its trigger.
#[tactic(auto, unfolding(crate::specs::CanonicalText::start_text))]
fn put_start(name: &Written, trigger: &Option<PropTree>, out: &mut Writer) -> Result<(), Memory>
    ensures { OnOk result (out.new ≡ out.old ++ start_text name.now trigger.now) }
{
    out.token(name)?;
    out.sign(Sign::Colon)?;
    put_trigger(trigger, out)
}

/// Writes the parties and the antecedent of an obligation or a power.
#[tactic(auto, unfolding(crate::specs::CanonicalText::parties_text))]
fn put_parties(
    party: &Written,
    other_party: &Written,
    antecedent: &PropTree,
    out: &mut Writer,
) -> Result<(), Memory>
    ensures { OnOk result (out.new ≡ out.old
        ++ parties_text party.now other_party.now antecedent.now) }
{
    out.token(party)?;
    out.sign(Sign::Comma)?;
    out.token(other_party)?;
    out.sign(Sign::Comma)?;
    antecedent.put(out)?;
    out.sign(Sign::Comma)
}

impl Printed for ObligTree {
    ghost text = { oblig_text };

    fn put(&self, out: &mut Writer) -> Result<(), Memory> {
        put_start(&self.name, &self.trigger, out)?;
        out.keyword(Keyword::O)?;
        out.sign(Sign::Open)?;
        put_parties(&self.debtor, &self.creditor, &self.antecedent, out)?;
        self.consequent.put(out)?;
        out.sign(Sign::Close)
    }
}

impl Printed for ActTree {
    ghost text = { act_text };

    #[tactic(auto, unfolding(crate::specs::CanonicalText::act_text))]
    fn put(&self, out: &mut Writer) -> Result<(), Memory> {
        out.keyword(verb_word(self.verb.verb))?;
        put_target(&self.target, out)
    }
}

impl Printed for PowerTree {
    ghost text = { power_text };

    fn put(&self, out: &mut Writer) -> Result<(), Memory> {
        put_start(&self.name, &self.trigger, out)?;
        out.keyword(Keyword::P)?;
        out.sign(Sign::Open)?;
        put_parties(&self.holder, &self.other_party, &self.antecedent, out)?;
        self.act.put(out)?;
        out.sign(Sign::Close)
    }
}

/// Writes the section of surviving obligations, or nothing where there are none.
fn put_surviving(obligations: &[ObligTree], out: &mut Writer) -> Result<(), Memory>
    ensures { OnOk result (out.new ≡ out.old ++ section
        (keyword keywords.Surviving ++ heading keywords.Obligations) oblig_text obligations.now) }
{
    if obligations.is_empty() {
        return Ok(());
    }
    out.keyword(Keyword::Surviving)?;
    out.section(Keyword::Obligations, obligations)
}

/// Writes the first line of a contract.
#[tactic(auto, unfolding(crate::specs::CanonicalText::first_line))]
fn put_first_line(contract: &ContractTree, out: &mut Writer) -> Result<(), Memory>
    ensures { OnOk result (out.new ≡ out.old ++ first_line contract.now) }
{
    out.keyword(Keyword::Contract)?;
    out.token(&contract.name)?;
    out.sign(Sign::Open)?;
    out.listed(contract.parameters.items())?;
    out.sign(Sign::Close)?;
    out.keyword(Keyword::Unit)?;
    out.heading(unit_word(contract.unit.unit))
}

/// Writes the sections of a contract that have lines.
#[tactic(auto, unfolding(crate::specs::CanonicalText::sections_text))]
fn put_sections(contract: &ContractTree, out: &mut Writer) -> Result<(), Memory>
    ensures { OnOk result (out.new ≡ out.old ++ sections_text contract.now) }
{
    out.section(Keyword::Declarations, contract.declarations.items())?;
    out.section(Keyword::Preconditions, contract.preconditions.items())?;
    out.section(Keyword::Postconditions, contract.postconditions.items())?;
    out.section(Keyword::Obligations, contract.obligations.items())?;
    put_surviving(contract.surviving.items(), out)?;
    out.section(Keyword::Powers, contract.powers.items())?;
    out.section(Keyword::Constraints, contract.constraints.items())
}

impl Printed for ContractTree {
    ghost text = { contract_text };

    fn put(&self, out: &mut Writer) -> Result<(), Memory> {
        put_first_line(self, out)?;
        put_sections(self, out)?;
        out.heading(Keyword::EndContract)
    }
}
