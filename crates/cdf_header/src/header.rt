// What a header says.
ghost use Rattle.std.specs.Prelude.{◌≡◌};

use std::marker::Model;

// A variable, with the numbers of its dimensions, the outermost first.
#[derive(Debug, Drop)]
pub(crate) struct Variable {
    pub name: Vec<u8>,
    pub ids: Vec<u64>,
    pub kind: u32,
    pub begin: u64,
}

/// The header of a file, with the file's size. A contract sees it as a `Head`.
#[derive(Debug, Drop)]
pub struct Header {
    pub(crate) bytes: u64,
    pub(crate) version: u8,
    pub(crate) numrecs: u64,
    // The lengths of the dimensions, 0 for the record dimension.
    pub(crate) dims: Vec<u64>,
    pub(crate) vars: Vec<Variable>,
}

impl Model for Header {
    ghost use Rattle.cdf_header.specs.Header.{Head, var};
    ghost use Rattle.cdf_header.specs.HeaderCode.{coded_head};
    ghost use Rattle.std.specs.Prelude.{map};

    ghost Value = { Head };

    ghost coded = { coded_head };

    ghost view = { λ h. record {
      bytes = h.bytes;
      version = h.version;
      numrecs = h.numrecs;
      dims = h.dims.items;
      vars = map var h.vars.items;
    } };
}
