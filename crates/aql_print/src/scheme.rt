ghost use Rattle.std.specs.Prelude.{◌≡◌, ◌+◌, ◌++◌, ◌∷◌, [], OnOk, IfOk, decimal, codes};
ghost use Rattle.aql_ty.specs.View.{type_of, types_of, sort_of};
ghost use Rattle.aql_print.specs.Appends.{AppendsPrefix};
ghost use Rattle.aql_print.specs.Joined.{join_texts};
ghost use Rattle.aql_print.specs.TypeText.{variable_text, part_text, part_texts, type_text, scheme_text};

use crate::bytes::{put, put_before, put_number};
use aql_ty::ty::{Scheme, Ty};
use aql_ty::variables::{find_index, scheme_variables};
use aql_value::Memory;
use std::alloc::Global;

/// Appends the text of a scheme. Where memory runs out, the old bytes and then a prefix of the text are left.
#[tactic(auto, using(crate::specs::Laws::Prefix::prefix_none))]
pub fn print_scheme(alloc: Global, s: &Scheme, out: &mut Vec<u8>) -> Result<(), Memory>
    ensures ok { OnOk result (out.new.items ≡ out.old.items ++ scheme_text (sort_of s.now)) }
    ensures prefix { AppendsPrefix out.old.items out.new.items (scheme_text (sort_of s.now)) }
{
    let text = scheme_text(alloc, s)?;
    put(&text, out)
}

// The text of a scheme.
fn scheme_text(alloc: Global, s: &Scheme) -> Result<Vec<u8>, Memory>
    ensures { IfOk result (λ text. text.items ≡ scheme_text (sort_of s.now)) }
{
    let names = scheme_variables(alloc, s)?;
    match s {
        Scheme::Value(t) => add_type(t, &names, Vec::new(alloc)),
        Scheme::Macro { argument, result } => {
            let text = add_type(argument, &names, Vec::new(alloc))?;
            let text = add(b" -> ", text)?;
            add_type(result, &names, text)
        }
    }
}

// Adds bytes behind a text.
fn add(bytes: &[u8], text: Vec<u8>) -> Result<Vec<u8>, Memory>
    ensures { IfOk result (λ made. made.items ≡ text.items ++ bytes.now) }
{
    let mut text = text;
    put(bytes, &mut text)?;
    Ok(text)
}

// Adds a number in decimal behind a text.
fn add_number(n: u64, text: Vec<u8>) -> Result<Vec<u8>, Memory>
    ensures { IfOk result (λ made. made.items ≡ text.items ++ decimal n) }
{
    let mut text = text;
    put_number(u128::from(n), &mut text)?;
    Ok(text)
}

// Adds the text of a variable, by its number.
fn add_variable(n: u64, text: Vec<u8>) -> Result<Vec<u8>, Memory>
    ensures { IfOk result (λ made. made.items ≡ text.items ++ variable_text n) }
{
    let text = add(&[b'\'', b'a' + (n % 26) as u8], text)?;
    if n / 26 == 0 {
        return Ok(text);
    }
    add_number(n / 26, text)
}

// Adds the text of a type.
#[cycle(add_type)]
#[tactic(auto, using(aql_ty::specs::Laws::View::type_of_row))]
fn add_type(t: &Ty, names: &[u64], text: Vec<u8>) -> Result<Vec<u8>, Memory>
    ensures { IfOk result (λ made. made.items ≡ text.items ++ type_text (type_of t.now) names.now) }
{
    match t {
        Ty::Nat => add(b"nat", text),
        Ty::Bool => add(b"bool", text),
        Ty::Text => add(b"string", text),
        Ty::Var(x) => add_variable(find_index(*x, names) as u64, text),
        Ty::Tuple(ts) => add_parts(&ts.items, names, text),
        Ty::SetOf(t) => {
            let text = add(b"{", text)?;
            let text = add_type(t, names, text)?;
            add(b"}", text)
        }
        Ty::ArrayOf { rank, cell } => {
            let text = add(b"[[", text)?;
            let text = add_type(cell, names, text)?;
            let text = add(b"]]_", text)?;
            add_number(*rank, text)
        }
    }
}

// Adds the texts of a tuple's parts, with ` * ` between each two.
#[cycle(add_type)]
fn add_parts(ts: &[Ty], names: &[u64], text: Vec<u8>) -> Result<Vec<u8>, Memory>
    ensures { IfOk result (λ made. made.items ≡ text.items ++ join_texts (codes " * ")
        (part_texts (types_of ts.now) names.now)) }
{
    let mut text = text;
    for (i, t) in ts.iter().enumerate() {
        put_before(i, b" * ", &mut text)?;
        text = add_part(t, names, text)?;
    }
    Ok(text)
}

#[cycle(add_type)]
fn add_part(t: &Ty, names: &[u64], text: Vec<u8>) -> Result<Vec<u8>, Memory>
    ensures { IfOk result (λ made. made.items ≡ text.items ++ part_text (type_of t.now)
        (type_text (type_of t.now) names.now)) }
{
    match t {
        Ty::Nat => add_type(t, names, text),
        Ty::Bool => add_type(t, names, text),
        Ty::Text => add_type(t, names, text),
        Ty::Var(_) => add_type(t, names, text),
        Ty::Tuple(_) => {
            let text = add(b"(", text)?;
            let text = add_type(t, names, text)?;
            add(b")", text)
        }
        Ty::SetOf(_) => add_type(t, names, text),
        Ty::ArrayOf { rank: _, cell: _ } => add_type(t, names, text),
    }
}
