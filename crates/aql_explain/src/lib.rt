//! The picture of a fault, as the program writes it to standard error: the line of the script with a mark under the
//! place, and a sentence of what is the matter there.
//!
//! `explain` is the one call: it is handed the script and the cause of the fault's line, and answers the picture, or none
//! where there is nothing to show. Its clause says that the place lies in the script, and has its line and column.
//!
//! Read `specs/Place`, then `cause`, `place`, `span`, `drawing`, `row` and `sentence`; for a fault of syntax `syntax`, then
//! `view`, `slip` and `wanted`; for one of types `names`. That the place is the fault's and that the sentence fits it stands in no clause.
#![tactic(auto)]

ghost use Rattle.std.specs.Prelude.{IfOk, IfSome};
ghost use Rattle.aql_explain.specs.Place.{IsPlaceIn};

mod cause;
mod drawing;
mod names;
mod place;
mod row;
mod sentence;
mod slip;
mod span;
mod syntax;
mod view;
mod wanted;

use aql_script::ScriptFault;
use aql_value::Memory;
pub use cause::Cause;
pub use place::Place;
use std::alloc::Global;

/// The picture of a fault, and the place that it marks.
#[derive(Drop)]
pub struct Picture {
    pub place: Place,
    pub text: Vec<u8>,
}

/// The picture of a fault of a script: the line and the column, the line's text with a mark under it, and a
/// sentence, each ended by a line feed. There is none where the place of the fault cannot be told.
pub fn explain(alloc: Global, script: &[u8], cause: &Cause) -> Result<Option<Picture>, Memory>
    ensures { IfOk result (λ o. IfSome o (λ p. IsPlaceIn script.now p.place)) }
{
    if let Cause::Script {
        fault: ScriptFault::Syntax { declaration },
    } = cause
    {
        return syntax::syntax_picture(alloc, script, *declaration);
    }
    if let Cause::Script {
        fault: ScriptFault::Type { declaration },
    } = cause
    {
        return type_picture(alloc, script, *declaration, cause);
    }
    plain_picture(alloc, script, cause)
}

// Of a declaration without a type: of a name in it that stands for nothing, or else of its first line.
fn type_picture(
    alloc: Global,
    script: &[u8],
    declaration: u64,
    cause: &Cause,
) -> Result<Option<Picture>, Memory>
    ensures { IfOk result (λ o. IfSome o (λ p. IsPlaceIn script.now p.place)) }
{
    match names::name_picture(alloc, script, declaration)? {
        Some(picture) => Ok(Some(picture)),
        None => plain_picture(alloc, script, cause),
    }
}

// By the place that the cause tells.
fn plain_picture(alloc: Global, script: &[u8], cause: &Cause) -> Result<Option<Picture>, Memory>
    ensures { IfOk result (λ o. IfSome o (λ p. IsPlaceIn script.now p.place)) }
{
    match span::place_of(alloc, script, cause)? {
        None => Ok(None),
        Some(place) => {
            let text = drawing::picture_text(alloc, script, &place, cause)?;
            Ok(Some(Picture { place, text }))
        }
    }
}
