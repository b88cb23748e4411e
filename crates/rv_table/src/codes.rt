// The codes of the instructions, by the names of the RISC-V specification: their numbers in the word table.

// Upper immediates and jumps.

pub const LUI: u8 = 2;

pub const AUIPC: u8 = 3;

pub const JAL: u8 = 4;

pub const JALR: u8 = 5;

// Branches.

pub const BEQ: u8 = 6;

pub const BNE: u8 = 7;

pub const BLT: u8 = 8;

pub const BGE: u8 = 9;

pub const BLTU: u8 = 10;

pub const BGEU: u8 = 11;

// Loads.

pub const LB: u8 = 12;

pub const LH: u8 = 13;

pub const LW: u8 = 14;

pub const LBU: u8 = 15;

pub const LHU: u8 = 16;

// Stores.

pub const SB: u8 = 17;

pub const SH: u8 = 18;

pub const SW: u8 = 19;

// Of a register and an immediate.

pub const ADDI: u8 = 20;

pub const SLTI: u8 = 21;

pub const SLTIU: u8 = 22;

pub const XORI: u8 = 23;

pub const ORI: u8 = 24;

pub const ANDI: u8 = 25;

pub const SLLI: u8 = 26;

pub const SRLI: u8 = 27;

pub const SRAI: u8 = 28;

// Of two registers.

pub const ADD: u8 = 29;

pub const SUB: u8 = 30;

pub const SLL: u8 = 31;

pub const SLT: u8 = 32;

pub const SLTU: u8 = 33;

pub const XOR: u8 = 34;

pub const SRL: u8 = 35;

pub const SRA: u8 = 36;

pub const OR: u8 = 37;

pub const AND: u8 = 38;

// Products, quotients and remainders.

pub const MUL: u8 = 39;

pub const MULH: u8 = 40;

pub const MULHSU: u8 = 41;

pub const MULHU: u8 = 42;

pub const DIV: u8 = 43;

pub const DIVU: u8 = 44;

pub const REM: u8 = 45;

pub const REMU: u8 = 46;

// The system.

pub const FENCE: u8 = 47;

pub const ECALL: u8 = 48;

pub const EBREAK: u8 = 49;

// Reads of the counters.

pub const RDCYCLE: u8 = 50;

pub const RDINSTRET: u8 = 51;

pub const RDCYCLEH: u8 = 52;

pub const RDINSTRETH: u8 = 53;
