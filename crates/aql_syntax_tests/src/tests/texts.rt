ghost use Rattle.std.specs.Prelude.{◌≡◌, ◌≤◌, length, IfOk};

use aql_print::{print_core, print_held, print_moves, print_scheme, print_trace, print_value};
use aql_ty::ty::{Scheme, Ty, row};
use aql_value::made::{both, make_box, make_boxes, make_list, make_pair_list};
use aql_value::{ArithOp, Cells, CompareOp, Dims, Items, Memory, Parts, Str, Value, canon};
use nrca_array::{Flat, Held};
use nrca_motion::{Move, MoveRule, Moves};
use nrca_sets::{Gather, Set};
use nrca_term::{Core, Path, Rule, Step, Terms, Trace};
use std::alloc::Global;
use std::process::Abort;

// 2 to the power of 127.
const HALF: u128 = 170141183460469231731687303715884105728;

fn assert_text(
    rt: &impl Abort,
    printed: Result<Vec<u8>, Memory>,
    want: &[u8],
) -> Result<(), Memory> {
    assert_eq!(rt; printed?.as_slice(), want);
    Ok(())
}

fn print_made(alloc: Global, v: Result<Value, Memory>) -> Result<Vec<u8>, Memory> {
    let v = v?;
    let mut out = Vec::new(alloc);
    print_value(alloc, &v, &mut out)?;
    Ok(out)
}

fn string(alloc: Global, content: &[u8]) -> Result<Value, Memory> {
    let mut bytes = Vec::new(alloc);
    bytes.extend_from_slice(content)?;
    Ok(Value::Text(Str { bytes }))
}

fn numbers(alloc: Global, all: &[u128]) -> Result<Items, Memory> {
    let mut items = Vec::new(alloc);
    for n in all {
        items.push(Value::Nat(*n))?;
    }
    Ok(Items { items })
}

fn set(alloc: Global, items: Result<Items, Memory>) -> Result<Value, Memory> {
    Ok(Value::Members(canon(alloc, items?)?))
}

fn pair(alloc: Global, a: Value, b: Value) -> Result<Value, Memory> {
    let items = make_pair_list(alloc, Ok(a), Ok(b))?;
    Ok(Value::Row(Parts::new(Items { items }).ok_or(Memory)?))
}

fn dims(alloc: Global, all: &[u128]) -> Result<Dims, Memory>
    ensures { IfOk result (λ d. d ≡ all.now) }
{
    let mut dims = Vec::new(alloc);
    dims.extend_from_slice(all)?;
    Ok(Dims { dims })
}

fn array(alloc: Global, lengths: &[u128], cells: Result<Items, Memory>) -> Result<Cells, Memory>
    requires some { 1 ≤ length lengths.now }
    requires few { length lengths.now ≤ 8 }
{
    let (dims, cells) = both(dims(alloc, lengths), cells)?;
    Cells::new(dims, cells).ok_or(Memory)
}

fn grid(alloc: Global, lengths: &[u128], cells: Result<Items, Memory>) -> Result<Value, Memory>
    requires some { 1 ≤ length lengths.now }
    requires few { length lengths.now ≤ 8 }
{
    Ok(Value::Grid(array(alloc, lengths, cells)?))
}

#[test]
fn strings_are_quoted_and_escaped(rt: HostRuntime) -> Result<(), Memory> {
    let alloc = rt.alloc();
    let rows: [(&[u8], &[u8]); 6] = [
        (b"", b"\"\""),
        (b"a b~", b"\"a b~\""),
        (b"\"\n", b"\"\\\"\\x0a\""),
        (b"\\", b"\"\\\\\""),
        (b"\x1f\x7f", b"\"\\x1f\\x7f\""),
        (b"\x80\xff", b"\"\\x80\\xff\""),
    ];
    for (content, want) in rows {
        assert_text(&rt, print_made(alloc, string(alloc, content)), want)?;
    }
    Ok(())
}

#[test]
fn numbers_and_truth_values(rt: HostRuntime) -> Result<(), Memory> {
    let alloc = rt.alloc();
    let greatest = 340282366920938463463374607431768211455;
    let digits = b"340282366920938463463374607431768211455";
    assert_text(&rt, print_made(alloc, Ok(Value::Nat(0))), b"0")?;
    assert_text(&rt, print_made(alloc, Ok(Value::Nat(greatest))), digits)?;
    assert_text(&rt, print_made(alloc, Ok(Value::Bool(true))), b"true")?;
    assert_text(&rt, print_made(alloc, Ok(Value::Bool(false))), b"false")
}

fn sets_of_numbers(alloc: Global, all: &[&[u128]]) -> Result<Items, Memory> {
    let mut sets = Vec::new(alloc);
    for members in all {
        sets.push(set(alloc, numbers(alloc, members))?)?;
    }
    Ok(Items { items: sets })
}

fn strings(alloc: Global, all: &[&[u8]]) -> Result<Items, Memory> {
    let mut items = Vec::new(alloc);
    for content in all {
        items.push(string(alloc, content)?)?;
    }
    Ok(Items { items })
}

#[test]
fn sets(rt: HostRuntime) -> Result<(), Memory> {
    let alloc = rt.alloc();
    let squares = set(alloc, numbers(alloc, &[9, 4, 1, 0, 4]));
    assert_text(&rt, print_made(alloc, squares), b"{0, 1, 4, 9}")?;
    let letters = set(alloc, strings(alloc, &[b"b", b"a", b"b"]));
    assert_text(&rt, print_made(alloc, letters), b"{\"a\", \"b\"}")
}

#[test]
fn sets_of_sets(rt: HostRuntime) -> Result<(), Memory> {
    let alloc = rt.alloc();
    let nested = set(alloc, sets_of_numbers(alloc, &[&[0, 1], &[0], &[]]));
    assert_text(&rt, print_made(alloc, nested), b"{{}, {0}, {0, 1}}")?;
    let grouped = grid(alloc, &[3], sets_of_numbers(alloc, &[&[5, 6], &[], &[7]]));
    assert_text(&rt, print_made(alloc, grouped), b"[[3; {5, 6}, {}, {7}]]")
}

#[test]
fn arrays_of_numbers(rt: HostRuntime) -> Result<(), Memory> {
    let alloc = rt.alloc();
    let table = grid(alloc, &[2, 3], numbers(alloc, &[0, 1, 2, 10, 11, 12]));
    assert_text(
        &rt,
        print_made(alloc, table),
        b"[[2,3; 0, 1, 2, 10, 11, 12]]",
    )?;
    let empty = grid(alloc, &[0], numbers(alloc, &[]));
    assert_text(&rt, print_made(alloc, empty), b"[[0; ]]")?;
    let huge = grid(alloc, &[HALF, 4, 0], numbers(alloc, &[]));
    let want = b"[[170141183460469231731687303715884105728,4,0; ]]";
    assert_text(&rt, print_made(alloc, huge), want)
}

fn signed_table(alloc: Global, all: &[(bool, u128)]) -> Result<Items, Memory> {
    let mut items = Vec::new(alloc);
    for (sign, n) in all {
        items.push(pair(alloc, Value::Bool(*sign), Value::Nat(*n))?)?;
    }
    Ok(Items { items })
}

#[test]
fn arrays_of_pairs(rt: HostRuntime) -> Result<(), Memory> {
    let alloc = rt.alloc();
    let table = grid(
        alloc,
        &[1, 2],
        signed_table(alloc, &[(false, 3), (true, 2)]),
    );
    assert_text(
        &rt,
        print_made(alloc, table),
        b"[[1,2; (false, 3), (true, 2)]]",
    )
}

#[test]
fn a_text_follows_what_stands_before_it(rt: HostRuntime) -> Result<(), Memory> {
    let alloc = rt.alloc();
    let mut out = Vec::new(alloc);
    out.extend_from_slice(b"val it = ")?;
    print_value(alloc, &Value::Nat(7), &mut out)?;
    assert_eq!(rt; out.as_slice(), b"val it = 7".as_slice());
    Ok(())
}

fn set_of(alloc: Global, t: Result<Ty, Memory>) -> Result<Ty, Memory> {
    Ok(Ty::SetOf(make_box(alloc, t)?))
}

fn array_of(alloc: Global, rank: u64, cell: Result<Ty, Memory>) -> Result<Ty, Memory> {
    let cell = make_box(alloc, cell)?;
    Ok(Ty::ArrayOf { rank, cell })
}

fn two(alloc: Global, a: Result<Ty, Memory>, b: Result<Ty, Memory>) -> Result<Ty, Memory> {
    Ok(row(make_pair_list(alloc, a, b)?))
}

// The tuple of the variables 0 to n - 1.
fn variables(alloc: Global, n: u64) -> Result<Ty, Memory> {
    let mut parts = Vec::new(alloc);
    for x in 0..n {
        parts.push(Ty::Var(x))?;
    }
    Ok(row(parts))
}

fn scheme_printed(alloc: Global, s: &Scheme) -> Result<Vec<u8>, Memory> {
    let mut out = Vec::new(alloc);
    print_scheme(alloc, s, &mut out)?;
    Ok(out)
}

// The text of a value's type.
fn type_printed(alloc: Global, t: Result<Ty, Memory>) -> Result<Vec<u8>, Memory> {
    scheme_printed(alloc, &Scheme::Value(t?))
}

// The text of a macro's type.
fn macro_printed(
    alloc: Global,
    argument: Result<Ty, Memory>,
    answer: Result<Ty, Memory>,
) -> Result<Vec<u8>, Memory> {
    let (argument, answer) = both(argument, answer)?;
    let scheme = Scheme::Macro {
        argument,
        result: answer,
    };
    scheme_printed(alloc, &scheme)
}

#[test]
fn types_of_values(rt: HostRuntime) -> Result<(), Memory> {
    let alloc = rt.alloc();
    let signed = array_of(alloc, 3, two(alloc, Ok(Ty::Bool), Ok(Ty::Nat)));
    assert_text(&rt, type_printed(alloc, signed), b"[[bool * nat]]_3")?;
    let left = two(alloc, Ok(Ty::Nat), Ok(Ty::Text));
    let nested = two(alloc, left, set_of(alloc, Ok(Ty::Var(9))));
    assert_text(&rt, type_printed(alloc, nested), b"(nat * string) * {'a}")
}

#[test]
fn variables_by_first_appearance(rt: HostRuntime) -> Result<(), Memory> {
    let alloc = rt.alloc();
    let argument = two(alloc, Ok(Ty::Var(5)), set_of(alloc, Ok(Ty::Var(2))));
    let answer = set_of(alloc, two(alloc, Ok(Ty::Var(5)), Ok(Ty::Var(2))));
    let text = macro_printed(alloc, argument, answer);
    assert_text(&rt, text, b"'a * {'b} -> {'a * 'b}")
}

#[test]
fn letters_begin_anew_with_a_number(rt: HostRuntime) -> Result<(), Memory> {
    let wide = type_printed(rt.alloc(), variables(rt.alloc(), 28))?;
    assert!(rt; wide.as_slice().ends_with(b" * 'y * 'z * 'a1 * 'b1"));
    Ok(())
}

fn pack_made(alloc: Global, lengths: &[u128], cells: Result<Items, Memory>) -> Result<Held, Memory>
    requires some { 1 ≤ length lengths.now }
    requires few { length lengths.now ≤ 8 }
{
    let cells = array(alloc, lengths, cells)?;
    Ok(Held::Flat(Flat::from_cells(alloc, cells)?))
}

fn put_held(alloc: Global, held: Result<Held, Memory>, out: &mut Vec<u8>) -> Result<(), Memory> {
    print_held(alloc, &held?, out)
}

#[test]
fn packed_arrays(rt: HostRuntime) -> Result<(), Memory> {
    let alloc = rt.alloc();
    let mut out = Vec::new(alloc);
    let cells = numbers(alloc, &[7, 300, 0]);
    put_held(alloc, pack_made(alloc, &[1, 3], cells), &mut out)?;
    put_held(alloc, Ok(Held::Value(Value::Bool(true))), &mut out)?;
    assert_eq!(rt; out.as_slice(), b"[[1,3; 7, 300, 0]]true".as_slice());
    Ok(())
}

fn pairs(alloc: Global) -> Result<Set, Memory> {
    let pairs = Gather::new(alloc).two(alloc, 5, 0)?.two(alloc, 1, 7)?;
    Ok(pairs.finish())
}

#[test]
fn packed_sets(rt: HostRuntime) -> Result<(), Memory> {
    let alloc = rt.alloc();
    let mut out = Vec::new(alloc);
    put_held(
        alloc,
        Ok(Held::Set(Set::naturals_below(alloc, 3)?)),
        &mut out,
    )?;
    put_held(alloc, Ok(Held::Set(pairs(alloc)?)), &mut out)?;
    put_held(alloc, Ok(Held::Set(Set::new(alloc))), &mut out)?;
    assert_eq!(rt; out.as_slice(), b"{0, 1, 2}{(1, 7), (5, 0)}{}".as_slice());
    Ok(())
}

// A term as it was made.
type Made = Result<Core, Memory>;

fn one_of(alloc: Global, term: Made) -> Result<Terms, Memory> {
    Ok(Terms(make_list(alloc, term)?))
}

fn core_printed(alloc: Global, term: Made) -> Result<Vec<u8>, Memory> {
    let term = term?;
    let mut out = Vec::new(alloc);
    print_core(alloc, &term, &mut out)?;
    Ok(out)
}

fn less(alloc: Global, a: Made, b: Made) -> Made {
    let (a, b) = make_boxes(alloc, a, b)?;
    Ok(Core::Compare(CompareOp::Less, a, b))
}

fn quotient(alloc: Global, a: Made, b: Made) -> Made {
    let (a, b) = make_boxes(alloc, a, b)?;
    Ok(Core::Arith(ArithOp::Quotient, a, b))
}

fn default(alloc: Global, a: Made, b: Made) -> Made {
    let (a, b) = make_boxes(alloc, a, b)?;
    Ok(Core::Default(a, b))
}

fn single(alloc: Global, a: Made) -> Made {
    Ok(Core::Single(make_box(alloc, a)?))
}

fn generate(alloc: Global, a: Made) -> Made {
    Ok(Core::Gen(make_box(alloc, a)?))
}

fn choice(alloc: Global, c: Made, a: Made, b: Made) -> Made {
    let (c, (a, b)) = both(make_box(alloc, c), make_boxes(alloc, a, b))?;
    Ok(Core::If(c, a, b))
}

// A loop over the numbers below 10,000.
fn loop_over(alloc: Global, body: Made) -> Made {
    let (over, body) = make_boxes(alloc, generate(alloc, Ok(Core::Nat(10000))), body)?;
    Ok(Core::BigUnion { over, body })
}

fn tabulation(alloc: Global, bound: Made, body: Made) -> Made {
    let (bounds, body) = both(one_of(alloc, bound), make_box(alloc, body))?;
    Ok(Core::Tab { bounds, body })
}

fn dimension(alloc: Global, array: Made) -> Made {
    let array = make_box(alloc, array)?;
    Ok(Core::Dim { rank: 1, array })
}

fn literal(alloc: Global, dim: Made, cell: Made) -> Made {
    let (dims, cells) = both(one_of(alloc, dim), one_of(alloc, cell))?;
    Ok(Core::Literal { dims, cells })
}

fn cell(alloc: Global, array: Made, at: Made) -> Made {
    let (array, at) = both(make_box(alloc, array), one_of(alloc, at))?;
    Ok(Core::Sub { array, at })
}

fn let_name(alloc: Global, e: Made, body: Made) -> Made {
    let (e, body) = make_boxes(alloc, e, body)?;
    Ok(Core::Let(e, body))
}

// The members below 5 of a loop in a loop.
fn filter_loop(alloc: Global) -> Made {
    let test = less(alloc, Ok(Core::Var(1)), Ok(Core::Nat(5)));
    let member = single(alloc, Ok(Core::Var(1)));
    let filter = choice(alloc, test, member, Ok(Core::Empty));
    loop_over(alloc, loop_over(alloc, filter))
}

// The length of a table of 10 by each number below 3, and else declaration 3.
fn otherwise(alloc: Global) -> Made {
    let tenth = quotient(alloc, Ok(Core::Nat(10)), Ok(Core::Var(0)));
    let table = tabulation(alloc, Ok(Core::Nat(3)), tenth);
    default(alloc, dimension(alloc, table), Ok(Core::Global(27)))
}

// A cell of a literal array under a name.
fn bind_array(alloc: Global) -> Made {
    let array = literal(alloc, Ok(Core::Nat(1)), Ok(Core::Bottom));
    let_name(
        alloc,
        cell(alloc, array, Ok(Core::Nat(0))),
        Ok(Core::Var(0)),
    )
}

#[test]
fn core_terms(rt: HostRuntime) -> Result<(), Memory> {
    let alloc = rt.alloc();
    let want = b"U{U{(if (x0 < 5) then {x0} else {}) | x1 in gen(10000)} | x0 in gen(10000)}";
    assert_text(&rt, core_printed(alloc, filter_loop(alloc)), want)?;
    let want = b"(dim_1([[(10 / x0) | x0<3]]) default @3)";
    assert_text(&rt, core_printed(alloc, otherwise(alloc)), want)?;
    let want = b"(let x0 = sub([[1; undefined]]; 0) in x0)";
    assert_text(&rt, core_printed(alloc, bind_array(alloc)), want)
}

fn trace_printed(alloc: Global, rules: &[Rule]) -> Result<Vec<u8>, Memory> {
    let mut steps = Vec::new(alloc);
    for rule in rules {
        let path = Path(Vec::new(alloc));
        steps.push(Step { rule: *rule, path })?;
    }
    let mut out = Vec::new(alloc);
    print_trace(alloc, &Trace(steps), &mut out)?;
    Ok(out)
}

#[test]
fn traces(rt: HostRuntime) -> Result<(), Memory> {
    let alloc = rt.alloc();
    let rules = [Rule::A1, Rule::L1, Rule::K1, Rule::I1];
    assert_text(&rt, trace_printed(alloc, &[]), b"none")?;
    assert_text(&rt, trace_printed(alloc, &rules), b"A1 L1 K1 I1")
}

fn moves_printed(alloc: Global, rules: &[MoveRule]) -> Result<Vec<u8>, Memory> {
    let mut moves = Vec::new(alloc);
    for rule in rules {
        let path = Path(Vec::new(alloc));
        moves.push(Move { rule: *rule, path })?;
    }
    let mut out = Vec::new(alloc);
    print_moves(alloc, &Moves(moves), &mut out)?;
    Ok(out)
}

#[test]
fn moves(rt: HostRuntime) -> Result<(), Memory> {
    let alloc = rt.alloc();
    let rules = [MoveRule::M4, MoveRule::M3, MoveRule::M2, MoveRule::M1];
    assert_text(&rt, moves_printed(alloc, &[]), b"none")?;
    assert_text(&rt, moves_printed(alloc, &rules[..1]), b"M4")?;
    assert_text(&rt, moves_printed(alloc, &rules), b"M4 M3 M2 M1")
}
