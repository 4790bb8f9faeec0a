//! The names of the variables around a term, the innermost last.

ghost use Rattle.std.specs.Prelude.{◌≡◌, ℕ, length, take, option_map, OnOk};
ghost use Rattle.aql_syntax.specs.View.{pat_of, pats_of};
ghost use Rattle.aql_desugar_spec.specs.Start as start_term;
ghost use Rattle.aql_desugar_spec.specs.Start.{bind_pattern, bind_patterns};
ghost use Rattle.aql_desugar.specs.Names.{has_name, binders_in, Enters};

use aql_syntax::ast::Pattern;
use aql_value::{Memory, Str};

/// The number of the innermost variable of that name.
pub fn index_of(names: &[Option<&Str>], name: &Str) -> Option<u64>
    ensures { (base : ℕ) → result ≡ start_term.index_of name.now (binders_in names.now base) }
{
    let mut i = names.len();
    while i > 0 {
        i -= 1;
        if is_named(names[i], name) {
            return Some((names.len() - 1 - i) as u64);
        }
    }
    None
}

fn is_named(slot: Option<&Str>, name: &Str) -> bool
    ensures { result ≡ has_name name.now (option_map (λ x. x.now) slot.entry) }
{
    match slot {
        None => false,
        Some(x) => name.is(&x.bytes),
    }
}

/// Puts on the variables inside the match of a pattern.
#[cycle(enter)]
#[tactic(auto, using(crate::proofs::Scoping::entering))]
pub(crate) fn enter<'a>(p: &'a Pattern, names: &mut Vec<Option<&'a Str>>) -> Result<(), Memory>
    ensures inside { OnOk result
        (Enters (bind_pattern (pat_of p.now)) names.old.items names.new.items) }
    ensures around { OnOk result (take (length names.old.items) names.new.items ≡ names.old.items) }
{
    match p {
        Pattern::Bind(x) => names.push(Some(x))?,
        Pattern::Any => {}
        Pattern::Nat(_) => {}
        Pattern::Bool(_) => {}
        Pattern::Text(_) => {}
        Pattern::Name(_) => {}
        Pattern::Row(ps) => enter_all(&ps.items, names)?,
    }
    Ok(())
}

#[cycle(enter)]
#[tactic(auto, using(crate::proofs::Scoping::entering))]
fn enter_all<'a>(ps: &'a [Pattern], names: &mut Vec<Option<&'a Str>>) -> Result<(), Memory>
    ensures inside { OnOk result (Enters (bind_patterns (pats_of ps.now)) names.old.items
        names.new.items) }
    ensures around { OnOk result (take (length names.old.items) names.new.items ≡ names.old.items) }
{
    for p in ps {
        names.push(None)?;
        enter(p, names)?;
    }
    Ok(())
}
