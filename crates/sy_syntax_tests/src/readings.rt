ghost use Rattle.std.specs.Prelude.{◌<◌, ◌^◌, length};

use std::alloc::{AllocError, Global};
use std::test::Fail;
use sy_base::{FaultName, FileKind, Place, Refused, Text};
use sy_binding::{BindTree, BoundTree, FieldTree, GivenTree, ValueTree, binding};
use sy_lex::{Written, tokens};
use sy_print::print;
use sy_samples::{m, s, s_compiled};
use sy_spec::spec;

/// What of a specification a text is.
#[derive(Clone, Copy)]
enum Part {
    /// A type, without its semicolon, in line 2.
    Type,
    /// What stands behind the contract's name, from column 12 of line 3 on.
    Head,
    /// A declaration, without its semicolon, in line 5.
    Declaration,
    /// A precondition, without its semicolon, in line 5.
    Proposition,
    /// An obligation, without its semicolon, in line 5.
    Obligation,
    /// A power, without its semicolon, in line 5.
    Power,
    /// All sections, from line 4 on.
    Sections,
    /// The whole of it.
    Whole,
}

use Part::{Declaration, Head, Obligation, Power, Proposition, Sections, Type, Whole};

/// A specification with this part, and with as little beside it as it can have.
fn with_part(alloc: Global, part: Part, text: &str) -> Result<String, AllocError> {
    let heading = match part {
        Type => {
            return format!(in alloc;
                "Domain d
{text} ;
endDomain
Contract C ( ) unit Day
endContract
"
            );
        }
        Head => {
            return format!(in alloc;
                "Domain d
endDomain
Contract C {text}
endContract
"
            );
        }
        Sections => {
            return format!(in alloc;
                "Domain d
endDomain
Contract C ( ) unit Day
{text}endContract
"
            );
        }
        Whole => return format!(in alloc; "{text}"),
        Declaration => "Declarations",
        Proposition => "Preconditions",
        Obligation => "Obligations",
        Power => "Powers",
    };
    format!(in alloc;
        "Domain d
endDomain
Contract C ( ) unit Day
{heading}
{text} ;
endContract
"
    )
}

/// The canonical text of the specification that a text is.
fn printed(alloc: Global, source: &[u8]) -> Result<Text, Fail>
    requires { length source.now < 2 ^ 32 }
{
    let tokens = tokens(alloc, FileKind::Spec, source)?;
    let tree = spec(alloc, source, tokens.items())?;
    Ok(print(alloc, &tree)?)
}

/// Texts of types and of first lines of contracts, and their canonical texts.
const DOMAINS: &[(Part, &str, &str)] = &[
    // Types.
    (Type, "G isAn Enumeration(A)", "G isA Enumeration ( A )"),
    (
        Type,
        "G isA Enumeration(A,B,C)",
        "G isA Enumeration ( A , B , C )",
    ),
    (Type, "R isA Role", "R isA Role"),
    (Type, "A isAn Asset", "A isA Asset"),
    (Type, "E isAn Event", "E isA Event"),
    (Type, "F isAn E", "F isA E"),
    (Type, "R isA Role with n:N", "R isA Role with n : N"),
    (Type, "E isA F with Env n:N", "E isA F with Env n : N"),
    (
        Type,
        "E isAn Event with n:Number,Env g:G,t:Text",
        "E isA Event with n : Number , Env g : G , t : Text",
    ),
    // Parameters and units.
    (Head, "()unit Minute", "( ) unit Minute"),
    (Head, "()unit Hour", "( ) unit Hour"),
    (Head, "()unit Day", "( ) unit Day"),
    (Head, "(a:A)unit Day", "( a : A ) unit Day"),
    (
        Head,
        "(a:A,n:Number)unit Day",
        "( a : A , n : Number ) unit Day",
    ),
];

/// Texts of declarations, and their canonical texts.
const DECLARATIONS: &[(Part, &str, &str)] = &[
    (Declaration, "x:T", "x : T"),
    (Declaration, "x:T with a:=1", "x : T with a := 1"),
    (
        Declaration,
        "x:T with a:=1,b:=true,c:=y",
        "x : T with a := 1 , b := true , c := y",
    ),
    (Declaration, "x:T with a:=007", "x : T with a := 7"),
    (Declaration, "x:T with a:=000", "x : T with a := 0"),
    (Declaration, "x:T with a:=100", "x : T with a := 100"),
    (Declaration, "x:T with a:=-5", "x : T with a := - 5"),
    (Declaration, "x:T with a:=-05", "x : T with a := - 5"),
    (Declaration, "x:T with a:=\"\"", "x : T with a := \"\""),
    (
        Declaration,
        "x:T with a:=\"b  \\\"c\\\\\"",
        "x : T with a := \"b  \\\"c\\\\\"",
    ),
    (
        Declaration,
        "x:T with a:=2024-03-01",
        "x : T with a := 2024-03-01",
    ),
    (
        Declaration,
        "x:T with a:=2024-03-01T09",
        "x : T with a := 2024-03-01T09",
    ),
    (
        Declaration,
        "x:T with a:=2024-03-01T09:30",
        "x : T with a := 2024-03-01T09:30",
    ),
    (Declaration, "x:T with a:=b", "x : T with a := b"),
    (Declaration, "x:T with a:=b.c", "x : T with a := b . c"),
    (
        Declaration,
        "x:T with a:=b.c.d",
        "x : T with a := b . c . d",
    ),
    (Declaration, "x:T with a:=true", "x : T with a := true"),
    (Declaration, "x:T with a:=false", "x : T with a := false"),
    (
        Declaration,
        "x:T with a:=1+2-3",
        "x : T with a := 1 + 2 - 3",
    ),
    (Declaration, "x:T with a:=1--2", "x : T with a := 1 - - 2"),
    (
        Declaration,
        "x:T with a:=2*b*-3",
        "x : T with a := 2 * b * - 3",
    ),
    (
        Declaration,
        "x:T with a:=1+2*b.c-d*4",
        "x : T with a := 1 + 2 * b . c - d * 4",
    ),
];

/// Texts of propositions without parts, and their canonical texts.
const ATOMS: &[(Part, &str, &str)] = &[
    (Proposition, "true", "true"),
    (Proposition, "false", "false"),
    (Proposition, "a=1", "a = 1"),
    (Proposition, "a!=1", "a != 1"),
    (Proposition, "a<1", "a < 1"),
    (Proposition, "a<=1", "a <= 1"),
    (Proposition, "a>1", "a > 1"),
    (Proposition, "a>=1", "a >= 1"),
    (Proposition, "a=true", "a = true"),
    (Proposition, "a=false", "a = false"),
    (Proposition, "-1+a<b*2", "- 1 + a < b * 2"),
    (Proposition, "\"x\"=a.b.c", "\"x\" = a . b . c"),
    (Proposition, "2024-03-01<=d", "2024-03-01 <= d"),
    (Proposition, "happens(e)", "happens ( e )"),
    (
        Proposition,
        "happensBefore(e,2024-03-01)",
        "happensBefore ( e , 2024-03-01 )",
    ),
    (Proposition, "happensAfter(e,d)", "happensAfter ( e , d )"),
    (
        Proposition,
        "happensWithin(e,c,d)",
        "happensWithin ( e , c , d )",
    ),
    (
        Proposition,
        "occurs(state(o)=Active,c,d)",
        "occurs ( state ( o ) = Active , c , d )",
    ),
    (
        Proposition,
        "occurs(state(contract)!=Active,c,d)",
        "occurs ( state ( contract ) != Active , c , d )",
    ),
    (
        Proposition,
        "holds(state(o)!=Active)",
        "holds ( state ( o ) != Active )",
    ),
    (
        Proposition,
        "holds(state(contract)=Active)",
        "holds ( state ( contract ) = Active )",
    ),
];

/// Texts in which an event stands, and their canonical texts.
const EVENTS: &[(Part, &str, &str)] = &[
    (Proposition, "happens(e[n=1])", "happens ( e [ n = 1 ] )"),
    (
        Proposition,
        "happens(e[n>=a.b+01,g!=A,t=true])",
        "happens ( e [ n >= a . b + 1 , g != A , t = true ] )",
    ),
    (
        Proposition,
        "happens(exerted(p))",
        "happens ( exerted ( p ) )",
    ),
    (
        Proposition,
        "happens(triggered(o))",
        "happens ( triggered ( o ) )",
    ),
    (
        Proposition,
        "happens(activated(contract))",
        "happens ( activated ( contract ) )",
    ),
    (
        Proposition,
        "happens(resumed(o))",
        "happens ( resumed ( o ) )",
    ),
    (
        Proposition,
        "happens(suspended(o))",
        "happens ( suspended ( o ) )",
    ),
    (
        Proposition,
        "happens(fulfilled(o))",
        "happens ( fulfilled ( o ) )",
    ),
    (
        Proposition,
        "happens(violated(o))",
        "happens ( violated ( o ) )",
    ),
    (
        Proposition,
        "happens(expired(p))",
        "happens ( expired ( p ) )",
    ),
    (
        Proposition,
        "happens(discharged(o))",
        "happens ( discharged ( o ) )",
    ),
    (
        Proposition,
        "happens(terminated(contract))",
        "happens ( terminated ( contract ) )",
    ),
    (
        Proposition,
        "happens(completed(contract))",
        "happens ( completed ( contract ) )",
    ),
];

/// Texts in which a date stands, and their canonical texts.
const DATES: &[(Part, &str, &str)] = &[
    (
        Proposition,
        "happensAfter(e,d.b)",
        "happensAfter ( e , d . b )",
    ),
    (
        Proposition,
        "happensAfter(e,d.b.c)",
        "happensAfter ( e , d . b . c )",
    ),
    (
        Proposition,
        "happensAfter(e,time(f))",
        "happensAfter ( e , time ( f ) )",
    ),
    (
        Proposition,
        "happensAfter(e,time(f[n=1]))",
        "happensAfter ( e , time ( f [ n = 1 ] ) )",
    ),
    (
        Proposition,
        "happensAfter(e,time(violated(o))+3 Days)",
        "happensAfter ( e , time ( violated ( o ) ) + 3 Days )",
    ),
    (
        Proposition,
        "happensAfter(e,d+1 Minute)",
        "happensAfter ( e , d + 1 Minutes )",
    ),
    (
        Proposition,
        "happensAfter(e,d+2Minutes)",
        "happensAfter ( e , d + 2 Minutes )",
    ),
    (
        Proposition,
        "happensAfter(e,d+1 Hour)",
        "happensAfter ( e , d + 1 Hours )",
    ),
    (
        Proposition,
        "happensAfter(e,d+2Hours)",
        "happensAfter ( e , d + 2 Hours )",
    ),
    (
        Proposition,
        "happensAfter(e,d+1 Day)",
        "happensAfter ( e , d + 1 Days )",
    ),
    (
        Proposition,
        "happensAfter(e,d+2Days)",
        "happensAfter ( e , d + 2 Days )",
    ),
    (
        Proposition,
        "happensAfter(e,d+1 Week)",
        "happensAfter ( e , d + 1 Weeks )",
    ),
    (
        Proposition,
        "happensAfter(e,d+2Weeks)",
        "happensAfter ( e , d + 2 Weeks )",
    ),
    (
        Proposition,
        "happensAfter(e,d+010 Days)",
        "happensAfter ( e , d + 10 Days )",
    ),
    (
        Proposition,
        "happensAfter(e,d+n Days+a.n Hours+a.b.n Minutes)",
        "happensAfter ( e , d + n Days + a . n Hours + a . b . n Minutes )",
    ),
    (
        Proposition,
        "happensWithin(e,c+1 Day,d+2 Days)",
        "happensWithin ( e , c + 1 Days , d + 2 Days )",
    ),
    (
        Proposition,
        "happensBefore(e,d+1 Day+2 Day+3 Day+4 Day+5 Day+6 Day+7 Day+8 Day)",
        "happensBefore ( e , d + 1 Days + 2 Days + 3 Days + 4 Days + 5 Days + 6 Days + 7 Days + 8 Days )",
    ),
];

/// Texts of propositions with parts, and their canonical texts.
const JOINED: &[(Part, &str, &str)] = &[
    // Propositions of several parts, and those that need no brackets.
    (Proposition, "not true", "not true"),
    (Proposition, "not not a=1", "not not a = 1"),
    (Proposition, "true and a=1", "true and a = 1"),
    (
        Proposition,
        "true and false and true",
        "true and false and true",
    ),
    (Proposition, "true or a=1", "true or a = 1"),
    (
        Proposition,
        "true or false or true",
        "true or false or true",
    ),
    (
        Proposition,
        "true and false or true and true",
        "true and false or true and true",
    ),
    (
        Proposition,
        "not true and not false",
        "not true and not false",
    ),
    // Brackets that stay.
    (
        Proposition,
        "(true or false)and true",
        "( true or false ) and true",
    ),
    (
        Proposition,
        "true and(true or false)",
        "true and ( true or false )",
    ),
    (Proposition, "not(true and false)", "not ( true and false )"),
    (Proposition, "not(true or false)", "not ( true or false )"),
    (
        Proposition,
        "(true and false)and true",
        "( true and false ) and true",
    ),
    (
        Proposition,
        "true and(false and true)",
        "true and ( false and true )",
    ),
    (
        Proposition,
        "(true or false)or true",
        "( true or false ) or true",
    ),
    (
        Proposition,
        "true or(false or true)",
        "true or ( false or true )",
    ),
    // Brackets that are dropped.
    (Proposition, "(true)", "true"),
    (Proposition, "((a=1))", "a = 1"),
    (Proposition, "(true and false)", "true and false"),
    (Proposition, "(true or false)", "true or false"),
    (
        Proposition,
        "(true and false)or true",
        "true and false or true",
    ),
    (
        Proposition,
        "true or(false and true)",
        "true or false and true",
    ),
    (Proposition, "(not true)and false", "not true and false"),
    (Proposition, "not(a=1)", "not a = 1"),
    (Proposition, "not(not(true))", "not not true"),
    (
        Proposition,
        "(happens(e))and(a<2)or(true)",
        "happens ( e ) and a < 2 or true",
    ),
    (Proposition, "not((true or false))", "not ( true or false )"),
    (
        Proposition,
        "((true or(false))and((true)))",
        "( true or false ) and true",
    ),
];

/// Texts of obligations and powers, and their canonical texts.
const POSITIONS: &[(Part, &str, &str)] = &[
    // Obligations.
    (
        Obligation,
        "o:O(a,b,true,false)",
        "o : O ( a , b , true , false )",
    ),
    (
        Obligation,
        "o:true->O(a,b,true,false)",
        "o : true -> O ( a , b , true , false )",
    ),
    (
        Obligation,
        "o:(happens(e) or n=1)->O(a,b,(true),not happens(e))",
        "o : happens ( e ) or n = 1 -> O ( a , b , true , not happens ( e ) )",
    ),
    // Powers.
    (
        Power,
        "p:P(a,b,true,suspends(o))",
        "p : P ( a , b , true , suspends ( o ) )",
    ),
    (
        Power,
        "p:P(a,b,true,suspends(contract))",
        "p : P ( a , b , true , suspends ( contract ) )",
    ),
    (
        Power,
        "p:P(a,b,true,resumes(o))",
        "p : P ( a , b , true , resumes ( o ) )",
    ),
    (
        Power,
        "p:P(a,b,true,resumes(contract))",
        "p : P ( a , b , true , resumes ( contract ) )",
    ),
    (
        Power,
        "p:P(a,b,true,discharges(o))",
        "p : P ( a , b , true , discharges ( o ) )",
    ),
    (
        Power,
        "p:P(a,b,true,discharges(contract))",
        "p : P ( a , b , true , discharges ( contract ) )",
    ),
    (
        Power,
        "p:P(a,b,true,terminates(o))",
        "p : P ( a , b , true , terminates ( o ) )",
    ),
    (
        Power,
        "p:P(a,b,true,terminates(contract))",
        "p : P ( a , b , true , terminates ( contract ) )",
    ),
    (
        Power,
        "p:P(a,b,true,triggers(o))",
        "p : P ( a , b , true , triggers ( o ) )",
    ),
    (
        Power,
        "p:P(a,b,true,triggers(contract))",
        "p : P ( a , b , true , triggers ( contract ) )",
    ),
    (
        Power,
        "p:true->P(a,b,true,suspends(o))",
        "p : true -> P ( a , b , true , suspends ( o ) )",
    ),
    (
        Power,
        "p:happens(violated(o))->P(a,b,n>1 or true,suspends(o))",
        "p : happens ( violated ( o ) ) -> P ( a , b , n > 1 or true , suspends ( o ) )",
    ),
];

/// Texts with sections, and their canonical texts.
const SECTIONS: &[(Part, &str, &str)] = &[
    // Sections.
    (Sections, "", ""),
    (Sections, "Powers ", ""),
    (
        Sections,
        "Declarations Preconditions Postconditions Obligations
        Surviving Obligations Powers Constraints ",
        "",
    ),
    (
        Sections,
        "Declarations Preconditions true;Powers ",
        "Preconditions\ntrue ;\n",
    ),
    (
        Sections,
        "Preconditions // two of them
        a=1;b=2; ",
        "Preconditions\na = 1 ;\nb = 2 ;\n",
    ),
    (
        Sections,
        "Postconditions a=1;b=2; ",
        "Postconditions\na = 1 ;\nb = 2 ;\n",
    ),
    (
        Sections,
        "Constraints a=1;b=2; ",
        "Constraints\na = 1 ;\nb = 2 ;\n",
    ),
    (
        Sections,
        "Obligations Surviving Obligations o:O(a,b,true,false);q:true->O(b,a,true,false); ",
        "Surviving Obligations
o : O ( a , b , true , false ) ;
q : true -> O ( b , a , true , false ) ;
",
    ),
    (
        Sections,
        "Declarations x:T;y:T;Preconditions true;Postconditions false;
        Obligations o:O(a,b,true,false);
        Surviving Obligations q:O(b,a,false,true);
        Powers p:P(a,b,true,suspends(o));Constraints x=y; ",
        "Declarations
x : T ;
y : T ;
Preconditions
true ;
Postconditions
false ;
Obligations
o : O ( a , b , true , false ) ;
Surviving Obligations
q : O ( b , a , false , true ) ;
Powers
p : P ( a , b , true , suspends ( o ) ) ;
Constraints
x = y ;
",
    ),
    // The whole.
    (
        Whole,
        "Domain d X isA Y;Y isAn Event;endDomain Contract C()unit Day endContract",
        "Domain d
X isA Y ;
Y isA Event ;
endDomain
Contract C ( ) unit Day
endContract
",
    ),
];

/// Whether the part is printed so, and what is printed is read and printed the same way again.
fn is_printed_as(alloc: Global, part: Part, text: &str, wanted: &str) -> Result<bool, Fail> {
    let source = with_part(alloc, part, text)?;
    let wanted = with_part(alloc, part, wanted)?;
    if source.len() > 1000 || wanted.len() > 1000 {
        return Ok(false);
    }
    let found = printed(alloc, source.as_bytes())?;
    let again = printed(alloc, wanted.as_bytes())?;
    Ok(found.bytes() == wanted.as_bytes() && again.bytes() == wanted.as_bytes())
}

#[test]
fn prints_what_it_reads(rt: HostRuntime) -> Result<(), Fail> {
    let tables = [
        DOMAINS,
        DECLARATIONS,
        ATOMS,
        EVENTS,
        DATES,
        JOINED,
        POSITIONS,
        SECTIONS,
    ];
    for table in tables {
        for &(part, text, wanted) in table {
            assert!(rt; is_printed_as(rt.alloc(), part, text, wanted)?, "{text}");
        }
    }
    Ok(())
}

#[test]
fn prints_the_sample_contracts(rt: HostRuntime) -> Result<(), Fail> {
    let alloc = rt.alloc();
    let first_sale = printed(alloc, s())?;
    let left = s_compiled().strip_prefix(first_sale.bytes()).unwrap_or(b"");
    assert!(rt; left.starts_with(b"order "));
    let meat_sale = printed(alloc, m())?;
    assert!(rt; meat_sale.bytes().len() < 10000);
    let again = printed(alloc, meat_sale.bytes())?;
    assert_eq!(rt; again.bytes(), meat_sale.bytes());
    Ok(())
}

/// The binding that a text is.
fn bound(alloc: Global, source: &[u8]) -> Result<BindTree, Fail>
    requires { length source.now < 2 ^ 32 }
{
    let tokens = tokens(alloc, FileKind::Bind, source)?;
    Ok(binding(alloc, source, tokens.items())?)
}

/// Whether it is written so.
fn is_written(written: &Written, text: &str) -> bool {
    written.text.bytes() == text.as_bytes()
}

/// Whether it is a value of this kind, with this text.
fn is_value(value: &ValueTree, kind: &str, text: &str) -> bool {
    match value {
        ValueTree::Number(number) => kind == "number" && is_written(number, text),
        ValueTree::Negative(_, number) => kind == "negative" && is_written(number, text),
        ValueTree::Str(string) => kind == "string" && is_written(string, text),
        ValueTree::Date(date) => kind == "date" && is_written(date, text),
        ValueTree::Const(value, _) => kind == "truth" && *value == (text == "true"),
        ValueTree::Name(name) => kind == "name" && is_written(name, text),
    }
}

/// Whether a parameter of this name is bound to a plain value of this kind, with this text.
fn is_plain(given: &GivenTree, name: &str, kind: &str, text: &str) -> bool {
    match &given.bound {
        BoundTree::Value(value) => is_written(&given.name, name) && is_value(value, kind, text),
        BoundTree::Attributes(_, _) => false,
    }
}

/// The values of attributes that a parameter is bound to.
fn attributes(given: &GivenTree) -> Option<&[FieldTree]> {
    match &given.bound {
        BoundTree::Value(_) => None,
        BoundTree::Attributes(_, fields) => Some(fields.items()),
    }
}

/// Whether an attribute of this name has a value of this kind, with this text.
fn is_field(field: &FieldTree, name: &str, kind: &str, text: &str) -> bool {
    is_written(&field.name, name) && is_value(&field.value, kind, text)
}

/// Whether a text is read as a value of this kind, with this text: where a parameter is bound to
/// it, and where an attribute is.
fn is_read_as(alloc: Global, value: &str, kind: &str, text: &str) -> Result<bool, Fail> {
    let source = format!(in alloc; "start 2024-03-01;x:={value};y := {{ a := {value} }} ;")?;
    if source.len() > 1000 {
        return Ok(false);
    }
    let tree = bound(alloc, source.as_bytes())?;
    let [x, y] = tree.parameters.items() else {
        return Ok(false);
    };
    let Some([a]) = attributes(y) else {
        return Ok(false);
    };
    Ok(is_written(&y.name, "y") && is_plain(x, "x", kind, text) && is_field(a, "a", kind, text))
}

#[test]
fn reads_bindings(rt: HostRuntime) -> Result<(), Fail> {
    let alloc = rt.alloc();
    let alone = bound(alloc, b"start 2024-03-01T09:30;")?;
    assert!(rt; is_written(&alone.start, "2024-03-01T09:30"));
    assert_eq!(rt; alone.parameters.items().len(), 0);
    let values = [
        ("500", "number", "500"),
        ("007", "number", "007"),
        ("-5", "negative", "5"),
        ("\"a \\\"b\"", "string", "\"a \\\"b\""),
        ("2024-03-02T09", "date", "2024-03-02T09"),
        ("true", "truth", "true"),
        ("false", "truth", "false"),
        ("Prime", "name", "Prime"),
    ];
    for (value, kind, text) in values {
        assert!(rt; is_read_as(alloc, value, kind, text)?, "{value}");
    }
    let braces = bound(
        alloc,
        b"start 2024-03-01;\nx := {};\ny := {a := 1, b := c};",
    )?;
    assert!(rt; is_written(&braces.start, "2024-03-01"));
    let [x, y] = braces.parameters.items() else {
        return Err("two parameters".into());
    };
    assert!(rt; matches!(attributes(x), Some([])));
    let Some([a, b]) = attributes(y) else {
        return Err("two attributes".into());
    };
    assert!(rt; is_field(a, "a", "number", "1"));
    assert!(rt; is_field(b, "b", "name", "c"));
    Ok(())
}

/// Whether it is a fault of syntax in this file, at this place and with these words.
fn is_syntax_fault(refused: Option<Refused>, file: FileKind, place: Place, words: &str) -> bool {
    match refused {
        Some(Refused::Refusal(refusal)) => {
            refusal.file == file
                && refusal.name == FaultName::SyntaxFault
                && refusal.place == Some(place)
                && refusal.words.bytes() == words.as_bytes()
        }
        _ => false,
    }
}

/// The table has texts of parts, and the place and the text of the token at which each is refused.
const REFUSED: &[(Part, &str, u64, u64, &str)] = &[
    // The text ends too early.
    (Whole, "", 1, 1, ""),
    (Whole, "\n", 2, 1, ""),
    (Whole, "Domain", 1, 7, ""),
    (Whole, "Domain d // x", 1, 14, ""),
    (Whole, "Domain d endDomain Contract C() unit Day", 1, 41, ""),
    (
        Whole,
        "Domain d\nendDomain\nContract C() unit Day\n",
        4,
        1,
        "",
    ),
    // Something stands before the domain, in its stead or behind the contract.
    (Whole, "x Domain d endDomain", 1, 1, "x"),
    (Whole, "Contract C() unit Day endContract", 1, 1, "Contract"),
    (Whole, "Domain d endContract", 1, 10, "endContract"),
    (
        Whole,
        "Domain d endDomain Contract C() unit Day endContract x",
        1,
        54,
        "x",
    ),
    (
        Whole,
        "Domain d endDomain Contract C() unit Day endContract\n;",
        2,
        1,
        ";",
    ),
    // A semicolon is missing, or stands alone.
    (Whole, "Domain d X isA Y endDomain", 1, 18, "endDomain"),
    (Sections, "Preconditions\ntrue\n", 6, 1, "endContract"),
    (Sections, "Preconditions\ntrue\nPowers\n", 6, 1, "Powers"),
    (Sections, "Preconditions true true;\n", 4, 20, "true"),
    (Sections, "Preconditions ;\n", 4, 15, ";"),
    // A list ends with a comma, or has nothing in it.
    (Type, "G isA Enumeration(A,)", 2, 21, ")"),
    (Type, "G isA Enumeration()", 2, 19, ")"),
    (Type, "E isA Event with n: N,", 2, 24, ";"),
    (Type, "E isA Event with", 2, 18, ";"),
    (Head, "(a: A,) unit Day", 3, 18, ")"),
    (Head, "(,) unit Day", 3, 13, ","),
    (Declaration, "x: T with", 5, 11, ";"),
    (Declaration, "x: T with a := 1,", 5, 19, ";"),
    (Proposition, "happens(e[])", 5, 11, "]"),
    (Proposition, "happens(e[n=1,])", 5, 15, "]"),
    // Reserved words stand for names, or other tokens do.
    (Type, "Role isA Asset", 2, 1, "Role"),
    (Type, "G isA Enumeration(A, not)", 2, 22, "not"),
    (Type, "A isA Asset with Env: N", 2, 21, ":"),
    (Head, "(unit: A) unit Day", 3, 13, "unit"),
    (Declaration, "time: T", 5, 1, "time"),
    (Declaration, "x: Day", 5, 4, "Day"),
    (Declaration, "x: \"a b\"", 5, 4, "\"a b\""),
    (
        Declaration,
        "x: T with 2024-03-01 := 1",
        5,
        11,
        "2024-03-01",
    ),
    (Proposition, "a.Env = 1", 5, 3, "Env"),
    (Proposition, "holds(state(o) = Day)", 5, 18, "Day"),
    // Types, units and what attributes are given.
    (Type, "A is Asset", 2, 3, "is"),
    (Type, "A isA", 2, 7, ";"),
    (Type, "A isA Contract", 2, 7, "Contract"),
    (Head, "() unit Week", 3, 20, "Week"),
    (Head, "() unit day", 3, 20, "day"),
    (Head, "()", 4, 1, "endContract"),
    (Head, "unit Day", 3, 12, "unit"),
    (Declaration, "x: T with a = 1", 5, 13, "="),
    (Declaration, "x: T with a := ", 5, 17, ";"),
    (Declaration, "x: T with a := not true", 5, 16, "not"),
    (Declaration, "x: T with a := 1 + true", 5, 20, "true"),
    (Declaration, "x: T with a := true + 1", 5, 21, "+"),
    (Declaration, "x: T with a := -b", 5, 17, "b"),
    (Declaration, "x: T with a := (1)", 5, 16, "("),
    // Sections.
    (Sections, "Surviving\no: O(a, b, true, true);\n", 5, 1, "o"),
    (Sections, "Powers\nObligations\n", 5, 1, "Obligations"),
    (
        Sections,
        "Preconditions\nDeclarations\n",
        5,
        1,
        "Declarations",
    ),
    (
        Sections,
        "Surviving Obligations\nObligations\n",
        5,
        1,
        "Obligations",
    ),
    (Sections, "Powers\nPowers\n", 5, 1, "Powers"),
    (Sections, "x: T;\n", 4, 1, "x"),
    (Sections, "endDomain\n", 4, 1, "endDomain"),
    // Comparisons and terms.
    (Proposition, "a == b", 5, 4, "="),
    (Proposition, "a < b < c", 5, 7, "<"),
    (Proposition, "a := b", 5, 3, ":="),
    (Proposition, "a", 5, 3, ";"),
    (Proposition, "a = not b", 5, 5, "not"),
    (Proposition, "a.b.c.d = 1", 5, 6, "."),
    (Proposition, "a + = 1", 5, 5, "="),
    (Proposition, "true = a", 5, 6, "="),
    (Proposition, "(a + 1) = b", 5, 7, ")"),
    (Proposition, "a = \"\u{e9}\" 1", 5, 10, "1"),
    // Propositions.
    (Proposition, "", 5, 2, ";"),
    (Proposition, "and true", 5, 1, "and"),
    (Proposition, "true and", 5, 10, ";"),
    (Proposition, "true or or true", 5, 9, "or"),
    (Proposition, "not", 5, 5, ";"),
    (Proposition, "not and", 5, 5, "and"),
    (Proposition, "(true", 5, 7, ";"),
    (Proposition, "(true))", 5, 7, ")"),
    (Proposition, "()", 5, 2, ")"),
    (Proposition, "happensBefore(e)", 5, 16, ")"),
    (Proposition, "happens(e, d)", 5, 10, ","),
    (Proposition, "happensWithin(e, d)", 5, 19, ")"),
    (Proposition, "happens e", 5, 9, "e"),
    (Proposition, "holds(o)", 5, 7, "o"),
    (Proposition, "holds(state(o) < Active)", 5, 16, "<"),
    (Proposition, "occurs(state(o) = A, d)", 5, 23, ")"),
    // Events.
    (Proposition, "happens(rescinded(p))", 5, 9, "rescinded"),
    (Proposition, "happens(broken(o))", 5, 15, "("),
    (Proposition, "happens(violated)", 5, 17, ")"),
    (Proposition, "happens(violated(o[n=1]))", 5, 19, "["),
    (Proposition, "happens(e[n])", 5, 12, "]"),
    (Proposition, "happens(e[1=n])", 5, 11, "1"),
    // Dates.
    (Proposition, "happensAfter(e, 1)", 5, 17, "1"),
    (Proposition, "happensAfter(e, d + 1)", 5, 22, ")"),
    (Proposition, "happensAfter(e, d + 1 Month)", 5, 23, "Month"),
    (Proposition, "happensAfter(e, d - 1 Day)", 5, 19, "-"),
    (Proposition, "happensAfter(e, d + -1 Day)", 5, 21, "-"),
    (Proposition, "happensAfter(e, time e)", 5, 22, "e"),
    (
        Proposition,
        "happensBefore(e,d+1 Day+2 Day+3 Day+4 Day+5 Day+6 Day+7 Day+8 Day+9 Day)",
        5,
        66,
        "+",
    ),
    // Obligations.
    (Obligation, "o O(a, b, true, true)", 5, 3, "O"),
    (Obligation, "o: true O(a, b, true, true)", 5, 9, "O"),
    (Obligation, "o: -> O(a, b, true, true)", 5, 4, "->"),
    (Obligation, "o: true -> P(a, b, true, true)", 5, 12, "P"),
    (Obligation, "o: P(a, b, true, true)", 5, 4, "P"),
    (Obligation, "o: O(a, true, true)", 5, 9, "true"),
    (Obligation, "o: O(a, b, true)", 5, 16, ")"),
    (Obligation, "o: O(a, b, true, true, true)", 5, 22, ","),
    // Powers.
    (Power, "p: O(a, b, true, suspends(o))", 5, 4, "O"),
    (Power, "p: P(a, b, true, true)", 5, 18, "true"),
    (Power, "p: P(a, b, true, rescinds(o))", 5, 18, "rescinds"),
    (Power, "p: P(a, b, true, suspends o)", 5, 27, "o"),
    (Power, "p: P(a, b, true, suspends(o.a))", 5, 28, "."),
    (Power, "p: P(a, b, suspends(o))", 5, 12, "suspends"),
];

#[test]
fn refuses_at_the_right_token(rt: HostRuntime) -> Result<(), Fail> {
    let alloc = rt.alloc();
    for &(part, text, line, column, words) in REFUSED {
        let source = with_part(alloc, part, text)?;
        assert!(rt; source.len() < 1000);
        let tokens = tokens(alloc, FileKind::Spec, source.as_bytes())?;
        let refused = spec(alloc, source.as_bytes(), tokens.items()).err();
        let place = Place { line, column };
        assert!(rt;
            is_syntax_fault(refused, FileKind::Spec, place, words),
            "{text}"
        );
    }
    Ok(())
}

/// The table has the beginning of eight levels, what stands inside of four times as many, the end
/// of eight levels, and the canonical text.
#[test]
fn takes_32_levels(rt: HostRuntime) -> Result<(), Fail> {
    let alloc = rt.alloc();
    let cases = [
        (
            "not not not not not not not not ",
            "true",
            "",
            "not not not not not not not not not not not not not not not not \
             not not not not not not not not not not not not not not not not true",
        ),
        ("((((((((", "true", "))))))))", "true"),
        (
            "not(not(not(not(",
            "true or false",
            "))))",
            "not not not not not not not not not not not not not not not not ( true or false )",
        ),
        (
            "(not((not not not(",
            "a = 1",
            "))))",
            "not not not not not not not not not not not not not not not not a = 1",
        ),
    ];
    for (begin, inside, end, wanted) in cases {
        let text = format!(in alloc; "{begin}{begin}{begin}{begin}{inside}{end}{end}{end}{end}")?;
        let source = with_part(alloc, Proposition, text.as_str())?;
        let wanted = with_part(alloc, Proposition, wanted)?;
        assert!(rt; source.len() < 1000);
        let found = printed(alloc, source.as_bytes())?;
        assert_eq!(rt; found.bytes(), wanted.as_bytes(), "{begin}");
    }
    Ok(())
}

/// The table has the beginning of eight levels, what stands inside of four times as many, the end
/// of eight levels, and the column and the text of the token at which it is refused.
#[test]
fn refuses_level_33(rt: HostRuntime) -> Result<(), Fail> {
    let alloc = rt.alloc();
    let cases = [
        (
            "not not not not not not not not ",
            "not true",
            "",
            129,
            "not",
        ),
        ("not not not not not not not not ", "(true)", "", 129, "("),
        ("((((((((", "(true)", "))))))))", 33, "("),
        ("((((((((", "not true", "))))))))", 33, "not"),
        ("((((((((", "true and not true", "))))))))", 42, "not"),
        ("((((((((", "true or (true)", "))))))))", 41, "("),
        ("not(not(not(not(", "not true", "))))", 65, "not"),
        ("not(not(not(not(", "(true)", "))))", 65, "("),
    ];
    for (begin, inside, end, column, words) in cases {
        let text = format!(in alloc; "{begin}{begin}{begin}{begin}{inside}{end}{end}{end}{end}")?;
        let source = with_part(alloc, Proposition, text.as_str())?;
        assert!(rt; source.len() < 1000);
        let tokens = tokens(alloc, FileKind::Spec, source.as_bytes())?;
        let refused = spec(alloc, source.as_bytes(), tokens.items()).err();
        let place = Place { line: 5, column };
        assert!(rt;
            is_syntax_fault(refused, FileKind::Spec, place, words),
            "{begin}{inside}"
        );
    }
    Ok(())
}

#[test]
fn refuses_bindings_at_the_right_token(rt: HostRuntime) -> Result<(), Fail> {
    let alloc = rt.alloc();
    let cases = [
        ("", 1, 1, ""),
        ("x := 1;", 1, 1, "x"),
        ("start", 1, 6, ""),
        ("start 2024-03-01", 1, 17, ""),
        ("start 2024-03-01;\nstart 2024-03-01;", 2, 1, "start"),
        ("start x;", 1, 7, "x"),
        ("start 2024-03-01 x := 1;", 1, 18, "x"),
        ("start 2024-03-01;\nx := ;", 2, 6, ";"),
        ("start 2024-03-01;\nx := 1", 2, 7, ""),
        ("start 2024-03-01;\nx = 1;", 2, 3, "="),
        ("start 2024-03-01;\nx := a.b;", 2, 7, "."),
        ("start 2024-03-01;\nx := 1 + 1;", 2, 8, "+"),
        ("start 2024-03-01;\nx := -a;", 2, 7, "a"),
        ("start 2024-03-01;\nx := not;", 2, 6, "not"),
        ("start 2024-03-01;\nend := 1;", 2, 1, "end"),
        ("start 2024-03-01;\nPowers := 1;", 2, 1, "Powers"),
        ("start 2024-03-01;\nx := {a := 1,};", 2, 14, "}"),
        ("start 2024-03-01;\nx := {a};", 2, 8, "}"),
        ("start 2024-03-01;\nx := {a := {}};", 2, 12, "{"),
        ("start 2024-03-01;\nx := {a := 1;", 2, 13, ";"),
    ];
    for (text, line, column, words) in cases {
        let source = text.as_bytes();
        assert!(rt; source.len() < 1000);
        let tokens = tokens(alloc, FileKind::Bind, source)?;
        let refused = binding(alloc, source, tokens.items()).err();
        let place = Place { line, column };
        assert!(rt;
            is_syntax_fault(refused, FileKind::Bind, place, words),
            "{text}"
        );
    }
    Ok(())
}
