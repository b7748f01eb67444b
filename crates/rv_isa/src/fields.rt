// A word cut into its fields.

/// The fields of a word, from its lowest bit up.
#[derive(Clone, Copy)]
pub struct Fields {
    pub opcode: u32,
    pub rd: u32,
    pub funct3: u32,
    pub rs1: u32,
    pub rs2: u32,
    pub funct7: u32,
}

impl Fields {
    ghost use Rattle.std.specs.Prelude.{◌≡◌};
    ghost use Rattle.rv_isa.specs.Fields.{fields_of, word_of, Fit};

    /// The fields of a word.
    pub fn of_word(word: u32) -> Fields
        ensures value { result ≡ fields_of word }
        ensures fit { Fit result }
    {
        Fields {
            opcode: word & 0x7F,
            rd: (word >> 7) & 0x1F,
            funct3: (word >> 12) & 7,
            rs1: (word >> 15) & 0x1F,
            rs2: (word >> 20) & 0x1F,
            funct7: word >> 25,
        }
    }

    /// The word that has these fields.
    pub fn word(&self) -> u32
        requires { Fit self.now }
        ensures { result ≡ word_of self.now }
    {
        self.opcode
            | (self.rd << 7)
            | (self.funct3 << 12)
            | (self.rs1 << 15)
            | (self.rs2 << 20)
            | (self.funct7 << 25)
    }
}
