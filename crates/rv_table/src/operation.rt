// What the codes mean.
ghost use Rattle.std.specs.Prelude.{◌≡◌};
ghost use Rattle.rv_table.specs.Texts.{names_address};

/// The comparison of a conditional branch (the RISC-V specification's mnemonics).
#[derive(Clone, Copy, Debug, PartialEq, Eq)]
pub enum BranchKind {
    Beq,
    Bne,
    Blt,
    Bge,
    Bltu,
    Bgeu,
}

/// The width and the extension of a load.
#[derive(Clone, Copy, Debug, PartialEq, Eq)]
pub enum LoadKind {
    Lb,
    Lh,
    Lw,
    Lbu,
    Lhu,
}

/// The width of a store.
#[derive(Clone, Copy, Debug, PartialEq, Eq)]
pub enum StoreKind {
    Sb,
    Sh,
    Sw,
}

/// What is computed of two operands.
#[derive(Clone, Copy, Debug, PartialEq, Eq)]
pub enum AluKind {
    Add,
    Sub,
    Sll,
    Slt,
    Sltu,
    Xor,
    Srl,
    Sra,
    Or,
    And,
    Mul,
    Mulh,
    Mulhsu,
    Mulhu,
    Div,
    Divu,
    Rem,
    Remu,
}

/// Which counter is read.
#[derive(Clone, Copy, Debug, PartialEq, Eq)]
pub enum CounterKind {
    Cycle,
    Instret,
    Cycleh,
    Instreth,
}

/// What an operation's code means.
#[derive(Clone, Copy, Debug, PartialEq, Eq)]
pub enum Operation {
    /// A word outside the table, and every code that has no row.
    Illegal,
    /// The fetch of a word that isn't executable.
    FetchFault,
    Lui,
    Auipc,
    Jal,
    Jalr,
    Branch(BranchKind),
    Load(LoadKind),
    Store(StoreKind),
    /// Of register rs1 and the immediate.
    AluImmediate(AluKind),
    /// Of registers rs1 and rs2.
    Alu(AluKind),
    Fence,
    Ecall,
    Ebreak,
    ReadCounter(CounterKind),
}

impl Operation {
    /// Whether the assembler writes its last operand as an address, `n(rs1)`: JALR and the loads.
    pub fn names_address(self) -> bool
        ensures { result ≡ names_address self }
    {
        matches!(self, Operation::Jalr | Operation::Load(_))
    }
}
