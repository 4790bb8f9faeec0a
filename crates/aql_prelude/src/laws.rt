//! Laws of the prelude, each the contract of a function that does nothing.

ghost use Rattle.aql_prelude.specs.Typing.{PreludeIsTyped};

/// Each declaration of the prelude has a typing over those before it.
pub fn is_typed()
    ensures { PreludeIsTyped }
{}
