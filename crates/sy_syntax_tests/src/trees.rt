use sqlite_items::{Boxed, Items};
use std::alloc::Global;
use std::test::Fail;
use sy_base::{List, Measure, Place, Text, TimeUnit};
use sy_lex::Written;
use sy_print::print;
use sy_spec::{ContractTree, DeclTree, DomainTree, ObligTree, SpecTree, UnitTree};
use sy_tree::{
    CmpTree, CountTree, DateTree, DurationTree, EventTree, FactorTree, First, MeasureTree,
    MomentTree, PropTree, RhsTree, SingleTree, TermTree,
};
use sy_words::Cmp;

const PLACE: Place = Place { line: 1, column: 1 };

fn written(alloc: Global, text: &[u8]) -> Result<Written, Fail> {
    Ok(Written {
        text: Text::new(alloc, text)?,
        place: PLACE,
    })
}

fn first(alloc: Global) -> Result<First, Fail> {
    Ok(First {
        token: written(alloc, b"(")?,
        bracket: Some(PLACE),
    })
}

fn truth(alloc: Global, value: bool) -> Result<PropTree, Fail> {
    Ok(PropTree::Const(value, first(alloc)?))
}

fn not(alloc: Global, part: PropTree) -> Result<PropTree, Fail> {
    Ok(PropTree::Not(Boxed::new(alloc, part)?, first(alloc)?))
}

fn all(alloc: Global, left: PropTree, right: PropTree) -> Result<PropTree, Fail> {
    let parts = vec![in alloc; left, right]?;
    Ok(PropTree::All(Items::from_vec(parts), first(alloc)?))
}

fn any(alloc: Global, left: PropTree, right: PropTree) -> Result<PropTree, Fail> {
    let parts = vec![in alloc; left, right]?;
    Ok(PropTree::Any(Items::from_vec(parts), first(alloc)?))
}

fn number(alloc: Global, digits: &[u8]) -> Result<TermTree, Fail> {
    Ok(TermTree {
        first: FactorTree {
            first: SingleTree::Number(written(alloc, digits)?),
            others: List::new(alloc),
        },
        others: List::new(alloc),
    })
}

fn negative(alloc: Global, digits: &[u8]) -> Result<TermTree, Fail> {
    Ok(TermTree {
        first: FactorTree {
            first: SingleTree::Negative(PLACE, written(alloc, digits)?),
            others: List::new(alloc),
        },
        others: List::new(alloc),
    })
}

/// That a number is at most a negative one.
fn at_most(alloc: Global, left: &[u8], right: &[u8]) -> Result<PropTree, Fail> {
    let cmp = CmpTree {
        cmp: Cmp::Le,
        place: PLACE,
    };
    let right = RhsTree::Term(negative(alloc, right)?);
    Ok(PropTree::Compare(number(alloc, left)?, cmp, right, first(alloc)?))
}

/// That `paid` happens before a date and a day.
fn paid_before(alloc: Global, date: &[u8]) -> Result<PropTree, Fail> {
    let mut plus = List::new(alloc);
    plus.push(DurationTree {
        count: CountTree::Number(written(alloc, b"01")?),
        measure: MeasureTree {
            measure: Measure::Days,
            word: written(alloc, b"Day")?,
        },
    })?;
    let date = DateTree {
        moment: MomentTree::Fixed(written(alloc, date)?),
        plus,
    };
    let event = EventTree::Declared(written(alloc, b"paid")?, List::new(alloc));
    Ok(PropTree::Before(event, date, first(alloc)?))
}

fn spec(alloc: Global, preconditions: List<PropTree>) -> Result<SpecTree, Fail> {
    let mut declarations = List::new(alloc);
    declarations.push(DeclTree {
        name: written(alloc, b"a")?,
        type_name: written(alloc, b"Party")?,
        gives: List::new(alloc),
    })?;
    let mut surviving = List::new(alloc);
    surviving.push(ObligTree {
        name: written(alloc, b"o")?,
        trigger: None,
        debtor: written(alloc, b"a")?,
        creditor: written(alloc, b"b")?,
        antecedent: truth(alloc, true)?,
        consequent: paid_before(alloc, b"2024-03-11")?,
    })?;
    Ok(SpecTree {
        domain: DomainTree {
            name: written(alloc, b"s")?,
            types: List::new(alloc),
        },
        contract: ContractTree {
            place: PLACE,
            name: written(alloc, b"S")?,
            parameters: List::new(alloc),
            unit: UnitTree {
                unit: TimeUnit::Day,
                place: PLACE,
            },
            declarations,
            preconditions,
            postconditions: List::new(alloc),
            obligations: List::new(alloc),
            surviving,
            powers: List::new(alloc),
            constraints: List::new(alloc),
        },
    })
}

#[test]
fn prints_the_canonical_text(rt: HostRuntime) -> Result<(), Fail> {
    let alloc = rt.alloc();
    let mut preconditions = List::new(alloc);
    let both = all(alloc, truth(alloc, true)?, truth(alloc, false)?)?;
    let either = any(alloc, truth(alloc, true)?, truth(alloc, false)?)?;
    preconditions.push(any(alloc, both, either)?)?;
    let both = all(alloc, truth(alloc, true)?, truth(alloc, false)?)?;
    let either = any(alloc, truth(alloc, true)?, truth(alloc, false)?)?;
    preconditions.push(all(alloc, either, not(alloc, both)?)?)?;
    preconditions.push(not(alloc, not(alloc, at_most(alloc, b"007", b"00")?)?)?)?;
    let text = print(alloc, &spec(alloc, preconditions)?)?;
    let want: &[u8] = b"Domain s
endDomain
Contract S ( ) unit Day
Declarations
a : Party ;
Preconditions
true and false or ( true or false ) ;
( true or false ) and not ( true and false ) ;
not not 7 <= - 0 ;
Surviving Obligations
o : O ( a , b , true , happensBefore ( paid , 2024-03-11 + 1 Days ) ) ;
endContract
";
    assert_eq!(rt; text.bytes(), want);
    Ok(())
}
