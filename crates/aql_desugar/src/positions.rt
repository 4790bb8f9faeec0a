//! The positions that names stand for.

ghost use Rattle.std.specs.Prelude.{◌≡◌, ◌<◌, ◌≤◌, ◌+◌, ◌++◌, ◌∷◌, [], length, take, option_map, IfSome, IfOk, OnOk};
ghost use Rattle.aql_names.specs.Named.{last_named};
ghost use Rattle.aql_syntax.specs.Names.{find};
ghost use Rattle.aql_syntax.specs.Tree.{declared_name};
ghost use Rattle.aql_syntax.specs.View.{decl_of};
ghost use Rattle.aql_syntax.specs.Measured.{latest, names_of};
ghost use Rattle.nrca_term.specs.View.{term_of};
ghost use Rattle.aql_desugar_spec.specs.Start as start_term;
ghost use Rattle.aql_desugar.specs.Names.{declaration_of, knowns_in};
ghost use Rattle.aql_desugar.specs.Named.{BeginWith};

use aql_names::names::Names;
use aql_syntax::ast::Decl;
use aql_value::{Memory, Str};
use nrca_term::Core;
use std::alloc::Global;
use std::marker::Model;

/// Declarations, and an index of names that begin with theirs. Seen as the list of the declarations.
#[derive(Drop)]
pub struct Earlier<'a> {
    pub(crate) decls: &'a [Decl],
    pub(crate) names: &'a Names,
}

impl<'a> Model for Earlier<'a> {
    ghost use Rattle.std.specs.Prelude.{List};
    ghost use Rattle.std.specs.Coded.{coded_list};
    ghost use Rattle.aql_syntax.specs.declared.ast.Decl.{Decl};
    ghost use Rattle.aql_syntax.specs.contracts.ast.Decl.{the_row};

    ghost Value = { List Decl };

    ghost coded = { coded_list the_row.coded };

    ghost use Rattle.aql_desugar.specs.Named.{BeginWith};

    ghost view = { λ s. s.decls.now };

    ghost invariant = { λ s. BeginWith s.decls.now s.names.now };
}

impl<'a> Earlier<'a> {
    // The number of the declaration after these, counted from 1.
    fn next(&self) -> u64
        ensures { result ≡ length self.now + 1 }
    {
        self.decls.len() as u64 + 1
    }
}

/// The latest declaration of that name, with those before it: it is looked up in the index.
pub(crate) fn find<'a>(name: &Str, earlier: &Earlier<'a>) -> Option<(&'a Decl, Earlier<'a>)>
    ensures found { option_map (λ r. (decl_of r.0.now, latest r.1)) result ≡ declaration_of
        name.now (latest earlier.now) }
    ensures shorter { IfSome result (λ r. length r.1 < length earlier.now) }
{
    let decls = earlier.decls;
    let names = earlier.names;
    match last_index(name, decls, names) {
        None => None,
        Some(i) => Some((&decls[i], front(decls, names, i))),
    }
}

// The last of the declarations that has the name.
fn last_index(name: &Str, decls: &[Decl], names: &Names) -> Option<usize>
    requires named { BeginWith decls.now names.now }
    ensures last { result ≡ last_named name.now (names_of decls.now) }
    ensures inside { IfSome result (λ i. i < length decls.now) }
{
    names.latest_before(name, decls.len())
}

// The first declarations.
fn front<'a>(decls: &'a [Decl], names: &'a Names, n: usize) -> Earlier<'a>
    requires few { n ≤ length decls.now }
    requires named { BeginWith decls.now names.now }
    ensures { result ≡ take n decls.now }
{
    Earlier {
        decls: &decls[..n],
        names,
    }
}

/// An index of the names of declarations.
pub(crate) fn index_names(alloc: Global, decls: &[Decl]) -> Result<Names, Memory>
    ensures { IfOk result (λ names. names ≡ names_of decls.now) }
{
    let mut names = Names::new(alloc);
    for d in decls {
        push_name(alloc, &mut names, d)?;
    }
    Ok(names)
}

// The name of one declaration more.
fn push_name(alloc: Global, names: &mut Names, d: &Decl) -> Result<(), Memory>
    ensures { OnOk result (names.new ≡ names.old ++ declared_name (decl_of d.now) ∷ []) }
{
    let name = d.name_copy(alloc)?;
    names.push(alloc, &name)
}

/// The position that a name stands for; undefined where it is a macro, or nothing declares the name.
pub(crate) fn position_term(name: &Str, earlier: &Earlier) -> Core
    ensures { term_of result ≡ start_term.position_term (find name.now (knowns_in earlier.now)) }
{
    match find(name, earlier) {
        None => Core::Bottom,
        Some((d, before)) => value_term(d, before.next()),
    }
}

fn value_term(d: &Decl, n: u64) -> Core
    ensures { (known : start_term.Resolutions) → term_of result ≡ start_term.position_term
        (Some (start_term.known_of (decl_of d.now) known n)) }
{
    match d {
        Decl::Val { name: _, expr: _ } => Core::Global(n),
        Decl::Macro {
            name: _,
            pattern: _,
            body: _,
        } => Core::Bottom,
        Decl::Read {
            name: _,
            reader: _,
            expr: _,
        } => Core::Global(n),
        Decl::Bare { expr: _ } => Core::Global(n),
    }
}
