ghost use Rattle.std.specs.Prelude.{◌≡◌, ◌++◌, OnOk};
ghost use Rattle.aql_print.specs.Appends.{AppendsPrefix};
ghost use Rattle.aql_print.specs.TraceText.{rule_text, trace_text};

use crate::bytes::{put, put_before};
use aql_value::Memory;
use nrca_term::{Rule, Trace};
use std::alloc::Global;

/// Appends the names of the rules, with single spaces, or `none`. Where memory runs out, the old bytes and then a
/// prefix of the text are left.
pub fn print_trace(_alloc: Global, trace: &Trace, out: &mut Vec<u8>) -> Result<(), Memory>
    ensures ok { OnOk result (out.new.items ≡ out.old.items ++ trace_text trace.now) }
    ensures prefix { AppendsPrefix out.old.items out.new.items (trace_text trace.now) }
{
    if trace.0.is_empty() {
        return put(b"none", out);
    }
    for (i, step) in trace.0.iter().enumerate() {
        put_before(i, b" ", out)?;
        put(rule_name(step.rule), out)?;
    }
    Ok(())
}

fn rule_name(rule: Rule) -> &'static [u8]
    ensures { result.now ≡ rule_text rule }
{
    match rule {
        Rule::B1 => b"B1",
        Rule::K1 => b"K1",
        Rule::I1 => b"I1",
        Rule::I2 => b"I2",
        Rule::L1 => b"L1",
        Rule::L2 => b"L2",
        Rule::L3 => b"L3",
        Rule::P1 => b"P1",
        Rule::P2 => b"P2",
        Rule::S1 => b"S1",
        Rule::S2 => b"S2",
        Rule::S3 => b"S3",
        Rule::S4 => b"S4",
        Rule::S5 => b"S5",
        Rule::S6 => b"S6",
        Rule::S7 => b"S7",
        Rule::S8 => b"S8",
        Rule::S9 => b"S9",
        Rule::A1 => b"A1",
        Rule::A2 => b"A2",
        Rule::A3 => b"A3",
        Rule::A4 => b"A4",
        Rule::A5 => b"A5",
        Rule::A6 => b"A6",
        Rule::A7 => b"A7",
        Rule::C1 => b"C1",
        Rule::C2 => b"C2",
        Rule::C3 => b"C3",
        Rule::C4 => b"C4",
        Rule::N1 => b"N1",
        Rule::N2 => b"N2",
    }
}
