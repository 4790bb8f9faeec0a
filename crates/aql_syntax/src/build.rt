//! Trees made of lists, and the lists in them.

ghost use Rattle.std.specs.Prelude.{◌≡◌};
ghost use Rattle.aql_value.specs.Strict.{Strict};
ghost use Rattle.aql_syntax.specs.Tree as tree;
ghost use Rattle.aql_syntax.specs.Tree.{count_trees, append};
ghost use Rattle.aql_syntax.specs.View.{tree_of, trees_of, quals_of, axes_of, axes_in, defs_of, defs_in, pat_of, pats_of};

use crate::ast::{Bind, Binds, Expr, Exprs, LetBind, Lets, Pattern, Patterns, Qual, Quals};

/// A tuple.
pub fn row(items: Vec<Expr>) -> Expr
    ensures { tree_of result ≡ tree.op Strict.tuple (trees_of items.items) }
{
    Expr::Row(Exprs { items })
}

/// A set of members.
pub fn members(items: Vec<Expr>) -> Expr
    ensures { tree_of result ≡ tree.members (trees_of items.items) }
{
    Expr::Members(Exprs { items })
}

/// A comprehension.
pub fn comprehension(head: Box<Expr>, items: Vec<Qual>) -> Expr
    ensures { tree_of result ≡ tree.comp (tree_of head.value) (quals_of items.items) }
{
    Expr::Comp {
        head,
        quals: Quals { items },
    }
}

/// A tabulation.
pub fn tabulation(body: Box<Expr>, items: Vec<Bind>) -> Expr
    ensures { tree_of result ≡ tree.tab (axes_in items.items) (tree_of body.value) }
{
    Expr::Tab {
        body,
        binds: Binds { items },
    }
}

/// A literal array, of dimensions and cells.
pub fn literal(dims: Vec<Expr>, cells: Vec<Expr>) -> Expr
    ensures { tree_of result ≡ tree.op (Strict.literal (count_trees (trees_of dims.items)))
        (append (trees_of dims.items) (trees_of cells.items)) }
{
    Expr::Literal {
        dims: Exprs { items: dims },
        cells: Exprs { items: cells },
    }
}

/// A let.
pub fn let_in(items: Vec<LetBind>, body: Box<Expr>) -> Expr
    ensures { tree_of result ≡ tree.bindings (defs_in items.items) (tree_of body.value) }
{
    Expr::Let {
        binds: Lets { items },
        body,
    }
}

/// A subscript.
pub fn subscript(array: Box<Expr>, at: Vec<Expr>) -> Expr
    ensures { tree_of result ≡ tree.op Strict.sub (tree.tree (tree_of array.value)
        (trees_of at.items)) }
{
    Expr::Sub {
        array,
        at: Exprs { items: at },
    }
}

/// A tuple pattern.
pub fn tuple_pattern(items: Vec<Pattern>) -> Pattern
    ensures { pat_of result ≡ tree.tuple (pats_of items.items) }
{
    Pattern::Row(Patterns { items })
}

/// The indices of a tabulation.
pub fn indices_in(binds: &Binds) -> &[Bind]
    ensures { axes_in result.now ≡ axes_of binds.now }
{
    &binds.items
}

/// The bindings of a let.
pub fn bindings_in(binds: &Lets) -> &[LetBind]
    ensures { defs_in result.now ≡ defs_of binds.now }
{
    &binds.items
}
