//! Terms written as words, each behind its parts.

use crate::tests::stacks::{last, lasts, push_made};
use crate::tests::tables::entry_at;
use aql_value::made::{both, make_box, make_boxes};
use aql_value::{ArithOp, CompareOp, Memory, Str};
use nrca_term::{Core, Terms};
use std::alloc::Global;

// A form of terms by the number of its parts.
#[derive(Clone, Copy)]
enum Form {
    Alone(Alone),
    OfOne(OfOne),
    OfTwo(OfTwo),
    If,
    OfList(OfList),
}

#[derive(Clone, Copy)]
enum Alone {
    Var(u64),
    Global(u64),
    Bool(bool),
    Most,
    Bottom,
    Empty,
}

#[derive(Clone, Copy)]
enum OfOne {
    Proj(u64, u64),
    Single,
    Gen,
    Get,
    Dim(u64),
    Index(u64),
}

#[derive(Clone, Copy)]
enum OfTwo {
    Let,
    Default,
    Arith(ArithOp),
    Compare(CompareOp),
    Union,
    BigUnion,
    Sum,
}

// A form with lists of so many parts: `Tab` and `Sub` by their rank, `Literal` by its rank and its number of cells.
#[derive(Clone, Copy)]
enum OfList {
    Tuple(usize),
    Tab(usize),
    Sub(usize),
    Literal(usize, usize),
}

const FORMS: &[(&str, Form)] = &[
    ("v0", Form::Alone(Alone::Var(0))),
    ("v1", Form::Alone(Alone::Var(1))),
    ("v2", Form::Alone(Alone::Var(2))),
    ("v3", Form::Alone(Alone::Var(3))),
    ("g1", Form::Alone(Alone::Global(1))),
    ("g2", Form::Alone(Alone::Global(2))),
    ("g3", Form::Alone(Alone::Global(3))),
    ("g4", Form::Alone(Alone::Global(4))),
    ("T", Form::Alone(Alone::Bool(true))),
    ("F", Form::Alone(Alone::Bool(false))),
    ("max", Form::Alone(Alone::Most)),
    ("bot", Form::Alone(Alone::Bottom)),
    ("{}", Form::Alone(Alone::Empty)),
    ("p1/2", Form::OfOne(OfOne::Proj(1, 2))),
    ("p2/2", Form::OfOne(OfOne::Proj(2, 2))),
    ("p1/3", Form::OfOne(OfOne::Proj(1, 3))),
    ("p2/3", Form::OfOne(OfOne::Proj(2, 3))),
    ("one", Form::OfOne(OfOne::Single)),
    ("gen", Form::OfOne(OfOne::Gen)),
    ("get", Form::OfOne(OfOne::Get)),
    ("dim1", Form::OfOne(OfOne::Dim(1))),
    ("dim2", Form::OfOne(OfOne::Dim(2))),
    ("dim8", Form::OfOne(OfOne::Dim(8))),
    ("idx1", Form::OfOne(OfOne::Index(1))),
    ("idx2", Form::OfOne(OfOne::Index(2))),
    ("let", Form::OfTwo(OfTwo::Let)),
    ("or", Form::OfTwo(OfTwo::Default)),
    ("+", Form::OfTwo(OfTwo::Arith(ArithOp::Add))),
    ("-", Form::OfTwo(OfTwo::Arith(ArithOp::Monus))),
    ("*", Form::OfTwo(OfTwo::Arith(ArithOp::Mul))),
    ("/", Form::OfTwo(OfTwo::Arith(ArithOp::Quotient))),
    ("%", Form::OfTwo(OfTwo::Arith(ArithOp::Remainder))),
    ("=", Form::OfTwo(OfTwo::Compare(CompareOp::Equal))),
    ("<>", Form::OfTwo(OfTwo::Compare(CompareOp::Unequal))),
    ("<", Form::OfTwo(OfTwo::Compare(CompareOp::Less))),
    ("<=", Form::OfTwo(OfTwo::Compare(CompareOp::LessEqual))),
    (">", Form::OfTwo(OfTwo::Compare(CompareOp::Greater))),
    (">=", Form::OfTwo(OfTwo::Compare(CompareOp::GreaterEqual))),
    ("u", Form::OfTwo(OfTwo::Union)),
    ("U", Form::OfTwo(OfTwo::BigUnion)),
    ("S", Form::OfTwo(OfTwo::Sum)),
    ("if", Form::If),
    ("tup2", Form::OfList(OfList::Tuple(2))),
    ("tup3", Form::OfList(OfList::Tuple(3))),
    ("tab1", Form::OfList(OfList::Tab(1))),
    ("tab2", Form::OfList(OfList::Tab(2))),
    ("tab3", Form::OfList(OfList::Tab(3))),
    ("sub1", Form::OfList(OfList::Sub(1))),
    ("sub2", Form::OfList(OfList::Sub(2))),
    ("sub3", Form::OfList(OfList::Sub(3))),
    ("lit1.0", Form::OfList(OfList::Literal(1, 0))),
    ("lit1.1", Form::OfList(OfList::Literal(1, 1))),
    ("lit1.2", Form::OfList(OfList::Literal(1, 2))),
    ("lit2.0", Form::OfList(OfList::Literal(2, 0))),
    ("lit2.1", Form::OfList(OfList::Literal(2, 1))),
    ("lit2.2", Form::OfList(OfList::Literal(2, 2))),
    ("lit2.4", Form::OfList(OfList::Literal(2, 4))),
    ("lit2.6", Form::OfList(OfList::Literal(2, 6))),
];

fn form_of(word: &str) -> Option<Form> {
    entry_at(FORMS, word)
}

/// A term: each word makes a node of the terms before it.
pub fn term(alloc: Global, words: &str) -> Result<Core, Memory> {
    let mut stack = Vec::new(alloc);
    put_words(alloc, &mut stack, words)?;
    last(&mut stack)
}

fn put_words(alloc: Global, stack: &mut Vec<Core>, words: &str) -> Result<(), Memory> {
    for word in words.split(' ') {
        put_word(alloc, stack, word)?;
    }
    Ok(())
}

fn put_word(alloc: Global, stack: &mut Vec<Core>, word: &str) -> Result<(), Memory> {
    let made = node(alloc, stack, word);
    push_made(stack, made)
}

fn node(alloc: Global, stack: &mut Vec<Core>, word: &str) -> Result<Core, Memory> {
    match form_of(word) {
        Some(form) => make_node(alloc, stack, form),
        None => constant(alloc, word),
    }
}

fn make_node(alloc: Global, stack: &mut Vec<Core>, form: Form) -> Result<Core, Memory> {
    match form {
        Form::Alone(form) => Ok(leaf(form)),
        Form::OfOne(form) => with_part(form, make_box(alloc, last(stack))),
        Form::OfTwo(form) => with_parts(form, make_boxes(alloc, last(stack), last(stack))),
        Form::If => choice(alloc, stack),
        Form::OfList(form) => of_list(alloc, stack, form),
    }
}

fn leaf(form: Alone) -> Core {
    match form {
        Alone::Var(i) => Core::Var(i),
        Alone::Global(n) => Core::Global(n),
        Alone::Bool(b) => Core::Bool(b),
        Alone::Most => Core::Nat(u128::MAX),
        Alone::Bottom => Core::Bottom,
        Alone::Empty => Core::Empty,
    }
}

// A form of one part.
fn with_part(form: OfOne, part: Result<Box<Core>, Memory>) -> Result<Core, Memory> {
    match part {
        Ok(part) => Ok(of_one(form, part)),
        Err(error) => Err(error),
    }
}

fn of_one(form: OfOne, part: Box<Core>) -> Core {
    match form {
        OfOne::Proj(at, of) => Core::Proj { at, of, part },
        OfOne::Single => Core::Single(part),
        OfOne::Gen => Core::Gen(part),
        OfOne::Get => Core::Get(part),
        OfOne::Dim(rank) => Core::Dim { rank, array: part },
        OfOne::Index(rank) => Core::Index { rank, pairs: part },
    }
}

// A form of two parts, of which the second was taken off first.
fn with_parts(form: OfTwo, parts: Result<(Box<Core>, Box<Core>), Memory>) -> Result<Core, Memory> {
    match parts {
        Ok((b, a)) => Ok(of_two(form, a, b)),
        Err(error) => Err(error),
    }
}

fn of_two(form: OfTwo, a: Box<Core>, b: Box<Core>) -> Core {
    match form {
        OfTwo::Let => Core::Let(a, b),
        OfTwo::Default => Core::Default(a, b),
        OfTwo::Arith(op) => Core::Arith(op, a, b),
        OfTwo::Compare(op) => Core::Compare(op, a, b),
        OfTwo::Union => Core::Union(a, b),
        OfTwo::BigUnion => Core::BigUnion { over: a, body: b },
        OfTwo::Sum => Core::Sum { over: a, body: b },
    }
}

fn choice(alloc: Global, stack: &mut Vec<Core>) -> Result<Core, Memory> {
    let arms = make_boxes(alloc, last(stack), last(stack));
    choice_of(arms, make_box(alloc, last(stack)))
}

fn choice_of(
    arms: Result<(Box<Core>, Box<Core>), Memory>,
    test: Result<Box<Core>, Memory>,
) -> Result<Core, Memory> {
    match both(arms, test) {
        Ok((arms, test)) => Ok(Core::If(test, arms.1, arms.0)),
        Err(error) => Err(error),
    }
}

fn of_list(alloc: Global, stack: &mut Vec<Core>, form: OfList) -> Result<Core, Memory> {
    match form {
        OfList::Tuple(count) => tuple(lasts(stack, count)),
        OfList::Tab(rank) => tabulation(make_box(alloc, last(stack)), lasts(stack, rank)),
        OfList::Sub(rank) => subscript(lasts(stack, rank), make_box(alloc, last(stack))),
        OfList::Literal(rank, count) => literal(lasts(stack, count), lasts(stack, rank)),
    }
}

fn tuple(parts: Result<Vec<Core>, Memory>) -> Result<Core, Memory> {
    match parts {
        Ok(parts) => Ok(Core::Tuple(Terms(parts))),
        Err(error) => Err(error),
    }
}

fn tabulation(
    body: Result<Box<Core>, Memory>,
    bounds: Result<Vec<Core>, Memory>,
) -> Result<Core, Memory> {
    match both(body, bounds) {
        Ok((body, bounds)) => Ok(Core::Tab {
            bounds: Terms(bounds),
            body,
        }),
        Err(error) => Err(error),
    }
}

fn subscript(
    at: Result<Vec<Core>, Memory>,
    array: Result<Box<Core>, Memory>,
) -> Result<Core, Memory> {
    match both(at, array) {
        Ok((at, array)) => Ok(Core::Sub {
            array,
            at: Terms(at),
        }),
        Err(error) => Err(error),
    }
}

fn literal(
    cells: Result<Vec<Core>, Memory>,
    dims: Result<Vec<Core>, Memory>,
) -> Result<Core, Memory> {
    match both(cells, dims) {
        Ok((cells, dims)) => Ok(Core::Literal {
            dims: Terms(dims),
            cells: Terms(cells),
        }),
        Err(error) => Err(error),
    }
}

// A string behind a quote, or a number.
fn constant(alloc: Global, word: &str) -> Result<Core, Memory> {
    match word.strip_prefix('\'') {
        Some(text) => Ok(Core::Text(string(alloc, text)?)),
        None => Ok(Core::Nat(number(word)?)),
    }
}

/// The string of this text.
pub fn string(alloc: Global, text: &str) -> Result<Str, Memory> {
    let bytes = Vec::from_slice(alloc, text.as_bytes())?;
    Ok(Str { bytes })
}

/// The number that the digits write.
pub fn number(word: &str) -> Result<u128, Memory> {
    match word.parse::<u64>() {
        Ok(n) => Ok(u128::from(n)),
        Err(_) => Err(Memory),
    }
}
