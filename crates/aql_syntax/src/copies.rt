//! Copies: equal trees.

ghost use Rattle.std.specs.Prelude.{◌≡◌, IfOk};
ghost use Rattle.aql_syntax.specs.Tree.{Quals};
ghost use Rattle.aql_syntax.specs.View.{tree_of, trees_of, quals_of, qual_of, axes_in, defs_in, pat_of, pats_of, decl_of, reader_of};

use crate::ast::{Bind, CsvReader, Decl, Expr, Kind, Kinds, LetBind, Pattern, Qual, Reader};
use crate::build::tuple_pattern;
use crate::nodes::{
    Functional, Operation, Operator, application, choice, function, length, make_comprehension,
    make_default, make_let, make_literal, make_negation, make_subscript, make_tabulation, on_one,
    on_two, set, tuple,
};
use aql_value::Memory;
use aql_value::made::{both, make_box};
use std::alloc::Global;

impl Pattern {
    /// An equal pattern.
    #[cycle(pattern_copy)]
    #[tactic(auto, using(crate::specs::Laws::View::pat_of_row))]
    pub fn copy(&self, alloc: Global) -> Result<Pattern, Memory>
        ensures { IfOk result (λ made. pat_of made ≡ pat_of self.now) }
    {
        match self {
            Pattern::Bind(x) => Ok(Pattern::Bind(x.copy(alloc)?)),
            Pattern::Any => Ok(Pattern::Any),
            Pattern::Nat(n) => Ok(Pattern::Nat(*n)),
            Pattern::Bool(b) => Ok(Pattern::Bool(*b)),
            Pattern::Text(s) => Ok(Pattern::Text(s.copy(alloc)?)),
            Pattern::Name(x) => Ok(Pattern::Name(x.copy(alloc)?)),
            Pattern::Row(ps) => {
                let items = copy_patterns(alloc, &ps.items)?;
                Ok(tuple_pattern(items))
            }
        }
    }
}

impl Expr {
    /// An equal expression.
    #[cycle(copy)]
    #[tactic(auto, using(crate::specs::Laws::View::tree_views))]
    pub fn copy(&self, alloc: Global) -> Result<Expr, Memory>
        ensures { IfOk result (λ made. tree_of made ≡ tree_of self.now) }
    {
        match self {
            Expr::Nat(n) => Ok(Expr::Nat(*n)),
            Expr::Bool(b) => Ok(Expr::Bool(*b)),
            Expr::Text(s) => Ok(Expr::Text(s.copy(alloc)?)),
            Expr::Name(x) => Ok(Expr::Name(x.copy(alloc)?)),
            Expr::Row(es) => tuple(copy_exprs(alloc, &es.items)),
            Expr::Empty => Ok(Expr::Empty),
            Expr::Members(es) => set(copy_exprs(alloc, &es.items)),
            Expr::Comp { head, quals } => {
                make_comprehension(copy_parts(alloc, head), copy_quals(alloc, &quals.items))
            }
            Expr::Tab { body, binds } => {
                make_tabulation(copy_parts(alloc, body), copy_binds(alloc, &binds.items))
            }
            Expr::Literal { dims, cells } => {
                make_literal(
                    copy_exprs(alloc, &dims.items),
                    copy_exprs(alloc, &cells.items),
                )
            }
            Expr::Let { binds, body } => {
                make_let(copy_lets(alloc, &binds.items), copy_parts(alloc, body))
            }
            Expr::Sub { array, at } => {
                make_subscript(copy_parts(alloc, array), copy_exprs(alloc, &at.items))
            }
            Expr::If(c, a, b) => choice(
                copy_parts(alloc, c),
                copy_parts(alloc, a),
                copy_parts(alloc, b),
            ),
            Expr::And(a, b) => on_two(Operator::And, copy_parts(alloc, a), copy_parts(alloc, b)),
            Expr::Or(a, b) => on_two(Operator::Or, copy_parts(alloc, a), copy_parts(alloc, b)),
            Expr::Not(a) => make_negation(copy_parts(alloc, a)),
            Expr::Compare(o, a, b) => on_two(
                Operator::Compare(*o),
                copy_parts(alloc, a),
                copy_parts(alloc, b),
            ),
            Expr::Arith(o, a, b) => on_two(
                Operator::Arith(*o),
                copy_parts(alloc, a),
                copy_parts(alloc, b),
            ),
            Expr::Union(a, b) => on_two(
                Operator::Union,
                copy_parts(alloc, a),
                copy_parts(alloc, b),
            ),
            Expr::Gen(a) => on_one(Operation::Gen, copy_parts(alloc, a)),
            Expr::Get(a) => on_one(Operation::Get, copy_parts(alloc, a)),
            Expr::Len(a) => length(copy_parts(alloc, a)),
            Expr::Dim { rank, array } => on_one(Operation::Dim(*rank), copy_parts(alloc, array)),
            Expr::Index { rank, pairs } => on_one(
                Operation::Index(*rank),
                copy_parts(alloc, pairs),
            ),
            Expr::Apply { name, argument } => application(
                name.copy(alloc),
                copy_parts(alloc, argument),
            ),
            Expr::Fun {
                pattern,
                body,
                argument,
            } => function(
                Functional::Plain,
                pattern.copy(alloc),
                copy_parts(alloc, body),
                copy_parts(alloc, argument),
            ),
            Expr::SumMap {
                pattern,
                body,
                over,
            } => function(
                Functional::Sum,
                pattern.copy(alloc),
                copy_parts(alloc, body),
                copy_parts(alloc, over),
            ),
            Expr::Default(a, b) => make_default(copy_parts(alloc, a), copy_parts(alloc, b)),
        }
    }
}

impl Qual {
    // An equal qualifier.
    #[cycle(copy)]
    fn copy(&self, alloc: Global) -> Result<Qual, Memory>
        ensures { IfOk result (λ made. (rest : Quals) → qual_of made rest ≡ qual_of self.now rest) }
    {
        match self {
            Qual::From { pattern, over } => {
                let (pattern, over) = both(pattern.copy(alloc), over.copy(alloc))?;
                Ok(Qual::From { pattern, over })
            }
            Qual::Cells { index, cell, over } => {
                let patterns = both(index.copy(alloc), cell.copy(alloc));
                let ((index, cell), over) = both(patterns, over.copy(alloc))?;
                Ok(Qual::Cells { index, cell, over })
            }
            Qual::Match { pattern, of } => {
                let (pattern, of) = both(pattern.copy(alloc), of.copy(alloc))?;
                Ok(Qual::Match { pattern, of })
            }
            Qual::Test(e) => {
                let e = e.copy(alloc)?;
                Ok(Qual::Test(e))
            }
        }
    }
}

impl Decl {
    /// An equal declaration.
    pub fn copy(&self, alloc: Global) -> Result<Decl, Memory>
        ensures { IfOk result (λ made. decl_of made ≡ decl_of self.now) }
    {
        match self {
            Decl::Val { name, expr } => {
                let name = name.copy(alloc)?;
                let expr = expr.copy(alloc)?;
                Ok(Decl::Val { name, expr })
            }
            Decl::Macro {
                name,
                pattern,
                body,
            } => {
                let name = name.copy(alloc)?;
                let pattern = pattern.copy(alloc)?;
                let body = body.copy(alloc)?;
                Ok(Decl::Macro {
                    name,
                    pattern,
                    body,
                })
            }
            Decl::Read { name, reader, expr } => {
                let name = name.copy(alloc)?;
                let reader = reader.copy(alloc)?;
                let expr = expr.copy(alloc)?;
                Ok(Decl::Read { name, reader, expr })
            }
            Decl::Bare { expr } => {
                let expr = expr.copy(alloc)?;
                Ok(Decl::Bare { expr })
            }
        }
    }
}

impl Reader {
    /// An equal reader.
    pub fn copy(&self, alloc: Global) -> Result<Reader, Memory>
        ensures { IfOk result (λ made. reader_of made ≡ reader_of self.now) }
    {
        match self {
            Reader::Plain { rank } => Ok(Reader::Plain { rank: *rank }),
            Reader::Signed { rank } => Ok(Reader::Signed { rank: *rank }),
            Reader::Strided { rank } => Ok(Reader::Strided { rank: *rank }),
            Reader::Csv(csv) => {
                let items = copy_kinds(alloc, &csv.kinds.items)?;
                Ok(Reader::Csv(CsvReader {
                    header: csv.header,
                    kinds: Kinds { items },
                }))
            }
        }
    }
}

fn copy_kinds(alloc: Global, kinds: &[Kind]) -> Result<Vec<Kind>, Memory>
    ensures { IfOk result (λ made. made.items ≡ kinds.now) }
{
    let mut made = Vec::new(alloc);
    for kind in kinds {
        made.push(*kind)?;
    }
    Ok(made)
}

#[cycle(pattern_copy)]
#[tactic(auto, using(crate::specs::Laws::View::pats_steps))]
fn copy_patterns(alloc: Global, ps: &[Pattern]) -> Result<Vec<Pattern>, Memory>
    ensures { IfOk result (λ made. pats_of made.items ≡ pats_of ps.now) }
{
    let mut made = Vec::new(alloc);
    for p in ps {
        let copied = p.copy(alloc)?;
        made.push(copied)?;
    }
    Ok(made)
}

#[cycle(copy)]
fn copy_parts(alloc: Global, e: &Expr) -> Result<Box<Expr>, Memory>
    ensures { IfOk result (λ made. tree_of made.value ≡ tree_of e.now) }
{
    make_box(alloc, e.copy(alloc))
}

#[cycle(copy)]
#[tactic(auto, using(crate::specs::Laws::View::trees_steps))]
fn copy_exprs(alloc: Global, es: &[Expr]) -> Result<Vec<Expr>, Memory>
    ensures { IfOk result (λ made. trees_of made.items ≡ trees_of es.now) }
{
    let mut made = Vec::new(alloc);
    for e in es {
        let copied = e.copy(alloc)?;
        made.push(copied)?;
    }
    Ok(made)
}

#[cycle(copy)]
#[tactic(auto, using(crate::specs::Laws::View::quals_steps))]
fn copy_quals(alloc: Global, quals: &[Qual]) -> Result<Vec<Qual>, Memory>
    ensures { IfOk result (λ made. quals_of made.items ≡ quals_of quals.now) }
{
    let mut made = Vec::new(alloc);
    for q in quals {
        let copied = q.copy(alloc)?;
        made.push(copied)?;
    }
    Ok(made)
}

#[cycle(copy)]
#[tactic(auto, using(crate::specs::Laws::View::axes_steps))]
fn copy_binds(alloc: Global, binds: &[Bind]) -> Result<Vec<Bind>, Memory>
    ensures { IfOk result (λ made. axes_in made.items ≡ axes_in binds.now) }
{
    let mut made = Vec::new(alloc);
    for b in binds {
        let name = b.name.copy(alloc)?;
        let bound = b.bound.copy(alloc)?;
        made.push(Bind { name, bound })?;
    }
    Ok(made)
}

#[cycle(copy)]
#[tactic(auto, using(crate::specs::Laws::View::defs_steps))]
fn copy_lets(alloc: Global, binds: &[LetBind]) -> Result<Vec<LetBind>, Memory>
    ensures { IfOk result (λ made. defs_in made.items ≡ defs_in binds.now) }
{
    let mut made = Vec::new(alloc);
    for b in binds {
        let pattern = b.pattern.copy(alloc)?;
        let expr = b.expr.copy(alloc)?;
        made.push(LetBind { pattern, expr })?;
    }
    Ok(made)
}
