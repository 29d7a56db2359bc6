//! The classes of tokens. The grammar predicts by class.

ghost use Rattle.std.specs.Prelude.{◌≡◌};
ghost use Rattle.daide_token.specs.Class.{brackets, class_in, commands, listed, orders, parameters, press_classes, units};
ghost use Rattle.daide_token.specs.declared.class.Class.TheVariants.{Other, Param};

/// The class of a token, which is all that the grammar distinguishes. A class is a whole category, or one token with a
/// meaning of its own.
#[derive(Clone, Copy, Debug, PartialEq, Eq)]
pub enum Class {
    Num,
    Bra,
    Ket,
    Power,
    Note,
    Outcome,
    Coast,
    Season,
    Text,
    Province,
    Amy,
    Flt,
    Cto,
    Cvy,
    Hld,
    Mto,
    Sup,
    Via,
    Dsb,
    Rto,
    Bld,
    Rem,
    Wve,
    Ccd,
    Drw,
    Frm,
    Gof,
    Hlo,
    Hst,
    Huh,
    Iam,
    Lod,
    Map,
    Mdf,
    Mis,
    Nme,
    Not,
    Now,
    Obs,
    Off,
    Ord,
    Out,
    Prn,
    Rej,
    Sco,
    Slo,
    Snd,
    Sub,
    Sve,
    Thx,
    Tme,
    Yes,
    Adm,
    Smr,
    Aly,
    And,
    Bwx,
    Dmz,
    Fct,
    Idk,
    Ins,
    Occ,
    Orr,
    Pce,
    Prp,
    Qry,
    Scd,
    Sry,
    Sug,
    Thk,
    Try,
    Vss,
    Xdo,
    Lvl,
    Mrt,
    Uno,
    Param,
    Other,
    Alien,
    /// A word that the operator added, by its index.
    Word(u8),
}

/// Returns the class of a token, by its category (the first byte) and its code (the second).
pub(crate) fn class_in(category: u8, code: u8) -> Class
    ensures { result ≡ class_in category code }
{
    match category {
        0x00..=0x3F => Class::Num,
        0x40 => bracket(code),
        0x41 => Class::Power,
        0x42 => unit(code),
        0x43 => order(code),
        0x44 => Class::Note,
        0x45 => Class::Outcome,
        0x46 => Class::Coast,
        0x47 => Class::Season,
        0x48 => command(code),
        0x49 => parameter(code),
        0x4A => press(code),
        0x4B => Class::Text,
        0x50..=0x57 => Class::Province,
        _ => Class::Alien,
    }
}

/// Returns the class of a token of category 40.
fn bracket(code: u8) -> Class
    ensures { result ≡ listed brackets Other code }
{
    match code {
        0x00 => Class::Bra,
        0x01 => Class::Ket,
        _ => Class::Other,
    }
}

/// Returns the class of a token of category 42.
fn unit(code: u8) -> Class
    ensures { result ≡ listed units Other code }
{
    match code {
        0x00 => Class::Amy,
        0x01 => Class::Flt,
        _ => Class::Other,
    }
}

/// Returns the class of a token of category 43.
fn order(code: u8) -> Class
    ensures { result ≡ listed orders Other code }
{
    match code {
        0x20 => Class::Cto,
        0x21 => Class::Cvy,
        0x22 => Class::Hld,
        0x23 => Class::Mto,
        0x24 => Class::Sup,
        0x25 => Class::Via,
        0x40 => Class::Dsb,
        0x41 => Class::Rto,
        0x80 => Class::Bld,
        0x81 => Class::Rem,
        0x82 => Class::Wve,
        _ => Class::Other,
    }
}

/// Returns the class of a token of category 48.
fn command(code: u8) -> Class
    ensures { result ≡ listed commands Other code }
{
    match code {
        0x00 => Class::Ccd,
        0x01 => Class::Drw,
        0x02 => Class::Frm,
        0x03 => Class::Gof,
        0x04 => Class::Hlo,
        0x05 => Class::Hst,
        0x06 => Class::Huh,
        0x07 => Class::Iam,
        0x08 => Class::Lod,
        0x09 => Class::Map,
        0x0A => Class::Mdf,
        0x0B => Class::Mis,
        0x0C => Class::Nme,
        0x0D => Class::Not,
        0x0E => Class::Now,
        0x0F => Class::Obs,
        0x10 => Class::Off,
        0x11 => Class::Ord,
        0x12 => Class::Out,
        0x13 => Class::Prn,
        0x14 => Class::Rej,
        0x15 => Class::Sco,
        0x16 => Class::Slo,
        0x17 => Class::Snd,
        0x18 => Class::Sub,
        0x19 => Class::Sve,
        0x1A => Class::Thx,
        0x1B => Class::Tme,
        0x1C => Class::Yes,
        0x1D => Class::Adm,
        0x1E => Class::Smr,
        _ => Class::Other,
    }
}

/// Returns the class of a token of category 49.
fn parameter(code: u8) -> Class
    ensures { result ≡ listed parameters Param code }
{
    match code {
        0x03 => Class::Lvl,
        0x04 => Class::Mrt,
        0x0B => Class::Uno,
        _ => Class::Param,
    }
}

/// Returns the class of a token of category 4A.
fn press(code: u8) -> Class
    ensures { result ≡ listed press_classes Other code }
{
    match code {
        0x00 => Class::Aly,
        0x01 => Class::And,
        0x02 => Class::Bwx,
        0x03 => Class::Dmz,
        0x06 => Class::Fct,
        0x0A => Class::Idk,
        0x0C => Class::Ins,
        0x0E => Class::Occ,
        0x0F => Class::Orr,
        0x10 => Class::Pce,
        0x13 => Class::Prp,
        0x14 => Class::Qry,
        0x15 => Class::Scd,
        0x16 => Class::Sry,
        0x17 => Class::Sug,
        0x18 => Class::Thk,
        0x1A => Class::Try,
        0x1C => Class::Vss,
        0x1F => Class::Xdo,
        _ => Class::Other,
    }
}
