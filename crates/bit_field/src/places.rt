// The structures of the machine that can be struck, and the places in them.

ghost use Rattle.std.specs.Prelude.{◌≡◌};
ghost use Rattle.bit_field.specs.Names.{name_of, IsNamed};

/// A structure of the machine whose bits can be struck.
#[derive(Clone, Copy, PartialEq, Eq, Debug)]
pub enum Structure {
    /// The program counter of the fetch.
    Pc,
    /// The address of the next instruction to execute.
    Npc,
    /// The counters of the branch history.
    Bht,
    /// The branch targets.
    Btb,
    /// The instruction buffer.
    Ib,
    /// The latch between decoding and execution.
    IdEx,
    /// The latch between execution and memory.
    ExMem,
    /// The latch between memory and write-back.
    MemWb,
    /// The register file.
    Rf,
    /// The store buffer.
    Sb,
    /// The memory port.
    Port,
    /// The bytes of the data cache.
    CData,
    /// Its tags.
    CTag,
    /// Its valid bits.
    CValid,
    /// Its dirty bits.
    CDirty,
    /// Its replacement bits.
    CLru,
}

/// A bit of a structure, counted from 0.
#[derive(Clone, Copy, PartialEq, Eq, Debug)]
pub struct Place {
    pub structure: Structure,
    pub bit: u32,
}

/// The name of a structure in commands and reports.
pub fn structure_name(structure: Structure) -> &'static str
    ensures { result.now ≡ name_of structure }
{
    match structure {
        Structure::Pc => "pc",
        Structure::Npc => "npc",
        Structure::Bht => "bht",
        Structure::Btb => "btb",
        Structure::Ib => "ib",
        Structure::IdEx => "idex",
        Structure::ExMem => "exmem",
        Structure::MemWb => "memwb",
        Structure::Rf => "rf",
        Structure::Sb => "sb",
        Structure::Port => "port",
        Structure::CData => "cdata",
        Structure::CTag => "ctag",
        Structure::CValid => "cvalid",
        Structure::CDirty => "cdirty",
        Structure::CLru => "clru",
    }
}

/// The structure of that name; `None` exactly where none has it.
pub fn structure_named(name: &str) -> Option<Structure>
    ensures { IsNamed name.now result }
{
    match name {
        "pc" => Some(Structure::Pc),
        "npc" => Some(Structure::Npc),
        "bht" => Some(Structure::Bht),
        "btb" => Some(Structure::Btb),
        "ib" => Some(Structure::Ib),
        "idex" => Some(Structure::IdEx),
        "exmem" => Some(Structure::ExMem),
        "memwb" => Some(Structure::MemWb),
        "rf" => Some(Structure::Rf),
        "sb" => Some(Structure::Sb),
        "port" => Some(Structure::Port),
        "cdata" => Some(Structure::CData),
        "ctag" => Some(Structure::CTag),
        "cvalid" => Some(Structure::CValid),
        "cdirty" => Some(Structure::CDirty),
        "clru" => Some(Structure::CLru),
        _ => None,
    }
}
