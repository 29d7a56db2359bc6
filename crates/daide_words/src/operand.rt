//! The operand of a word.

ghost use Rattle.std.specs.Prelude.{◌≡◌, ◌≤◌, length};
ghost use Rattle.daide_words.specs.WordNames.{operand_name, operand_named};

/// The operand in brackets after a word. An arrangement or a press has the level of the whole.
#[derive(Clone, Copy, Debug, PartialEq, Eq)]
pub enum Operand {
    /// `( power )`
    Power,
    /// `( power+ )`: at least one
    Powers,
    /// `( province+ )`: at least one
    Provinces,
    /// `( order )`
    Order,
    /// `( arrangement )`
    Arrangement,
    /// `( press )`
    Press,
}

impl Operand {
    /// Returns the operand with a lower-case name: `power`, `powers`, `provinces`, `order`, `arrangement` or `press`.
    pub fn by_name(name: &[u8]) -> Option<Operand>
        ensures { result ≡ operand_named name.now }
    {
        if name == Operand::Power.name().as_bytes() {
            return Some(Operand::Power);
        }
        if name == Operand::Powers.name().as_bytes() {
            return Some(Operand::Powers);
        }
        if name == Operand::Provinces.name().as_bytes() {
            return Some(Operand::Provinces);
        }
        if name == Operand::Order.name().as_bytes() {
            return Some(Operand::Order);
        }
        if name == Operand::Arrangement.name().as_bytes() {
            return Some(Operand::Arrangement);
        }
        if name == Operand::Press.name().as_bytes() {
            return Some(Operand::Press);
        }
        None
    }

    /// Returns the operand's name, of at most eleven letters.
    pub fn name(self) -> &'static str
        ensures name { result.now ≡ operand_name self }
        ensures few { length result.now ≤ 11 }
    {
        match self {
            Operand::Power => "power",
            Operand::Powers => "powers",
            Operand::Provinces => "provinces",
            Operand::Order => "order",
            Operand::Arrangement => "arrangement",
            Operand::Press => "press",
        }
    }
}
