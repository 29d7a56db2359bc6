//! What a class adds to the open brackets, and the class of each token, by the class's number: code by code, and there
//! category by category. Printed by `scripts/print-table`; the check is what is trusted.
//!
//! A category whose codes have classes of their own lists them by a macro of its number.

use crate::numbers::CLASS_COUNT;

/// What a token of each class adds to the open brackets, wrapping.
#[rattlefmt::skip]
pub(crate) const BRACKETS: [u16; CLASS_COUNT] = [
    1, 65535, 0, 0, 0, 0, 0, 0, 0, 0, 0, 0, 0, 0, 0, 0, 0, 0, 0, 0, 0, 0, 0, 0, 0, 0, 0, 0, 0, 0, 0, 0, 0, 0, 0, 0, 0,
    0, 0, 0, 0, 0, 0, 0, 0, 0, 0, 0, 0, 0, 0, 0, 0, 0, 0, 0, 0, 0, 0, 0, 0, 0, 0, 0, 0, 0, 0, 0, 0, 0, 0, 0, 0, 0, 0,
    0, 0, 0, 0, 0, 0, 0, 0, 0, 0, 0, 0, 0, 0, 0, 0, 0, 0, 0, 0,
];

/// The number of a class.
macro_rules! class {
    (BRA) => { 0 };
    (KET) => { 1 };
    (NUM) => { 2 };
    (POWER) => { 3 };
    (NOTE) => { 4 };
    (OUTCOME) => { 5 };
    (COAST) => { 6 };
    (SEASON) => { 7 };
    (TEXT) => { 8 };
    (PROVINCE) => { 9 };
    (AMY) => { 10 };
    (FLT) => { 11 };
    (CTO) => { 12 };
    (CVY) => { 13 };
    (HLD) => { 14 };
    (MTO) => { 15 };
    (SUP) => { 16 };
    (VIA) => { 17 };
    (DSB) => { 18 };
    (RTO) => { 19 };
    (BLD) => { 20 };
    (REM) => { 21 };
    (WVE) => { 22 };
    (CCD) => { 23 };
    (DRW) => { 24 };
    (FRM) => { 25 };
    (GOF) => { 26 };
    (HLO) => { 27 };
    (HST) => { 28 };
    (HUH) => { 29 };
    (IAM) => { 30 };
    (LOD) => { 31 };
    (MAP) => { 32 };
    (MDF) => { 33 };
    (MIS) => { 34 };
    (NME) => { 35 };
    (NOT) => { 36 };
    (NOW) => { 37 };
    (OBS) => { 38 };
    (OFF) => { 39 };
    (ORD) => { 40 };
    (OUT) => { 41 };
    (PRN) => { 42 };
    (REJ) => { 43 };
    (SCO) => { 44 };
    (SLO) => { 45 };
    (SND) => { 46 };
    (SUB) => { 47 };
    (SVE) => { 48 };
    (THX) => { 49 };
    (TME) => { 50 };
    (YES) => { 51 };
    (ADM) => { 52 };
    (SMR) => { 53 };
    (ALY) => { 54 };
    (AND) => { 55 };
    (BWX) => { 56 };
    (DMZ) => { 57 };
    (FCT) => { 58 };
    (IDK) => { 59 };
    (INS) => { 60 };
    (OCC) => { 61 };
    (ORR) => { 62 };
    (PCE) => { 63 };
    (PRP) => { 64 };
    (QRY) => { 65 };
    (SCD) => { 66 };
    (SRY) => { 67 };
    (SUG) => { 68 };
    (THK) => { 69 };
    (TRY) => { 70 };
    (VSS) => { 71 };
    (XDO) => { 72 };
    (LVL) => { 73 };
    (MRT) => { 74 };
    (UNO) => { 75 };
    (PARAM) => { 76 };
    (OTHER) => { 77 };
    (ALIEN) => { 78 };
}

macro_rules! class_40 {
    (0x00) => { class!(BRA) };
    (0x01) => { class!(KET) };
    ($other:literal) => { class!(OTHER) };
}

macro_rules! class_42 {
    (0x00) => { class!(AMY) };
    (0x01) => { class!(FLT) };
    ($other:literal) => { class!(OTHER) };
}

macro_rules! class_43 {
    (0x20) => { class!(CTO) };
    (0x21) => { class!(CVY) };
    (0x22) => { class!(HLD) };
    (0x23) => { class!(MTO) };
    (0x24) => { class!(SUP) };
    (0x25) => { class!(VIA) };
    (0x40) => { class!(DSB) };
    (0x41) => { class!(RTO) };
    (0x80) => { class!(BLD) };
    (0x81) => { class!(REM) };
    (0x82) => { class!(WVE) };
    ($other:literal) => { class!(OTHER) };
}

macro_rules! class_48 {
    (0x00) => { class!(CCD) };
    (0x01) => { class!(DRW) };
    (0x02) => { class!(FRM) };
    (0x03) => { class!(GOF) };
    (0x04) => { class!(HLO) };
    (0x05) => { class!(HST) };
    (0x06) => { class!(HUH) };
    (0x07) => { class!(IAM) };
    (0x08) => { class!(LOD) };
    (0x09) => { class!(MAP) };
    (0x0A) => { class!(MDF) };
    (0x0B) => { class!(MIS) };
    (0x0C) => { class!(NME) };
    (0x0D) => { class!(NOT) };
    (0x0E) => { class!(NOW) };
    (0x0F) => { class!(OBS) };
    (0x10) => { class!(OFF) };
    (0x11) => { class!(ORD) };
    (0x12) => { class!(OUT) };
    (0x13) => { class!(PRN) };
    (0x14) => { class!(REJ) };
    (0x15) => { class!(SCO) };
    (0x16) => { class!(SLO) };
    (0x17) => { class!(SND) };
    (0x18) => { class!(SUB) };
    (0x19) => { class!(SVE) };
    (0x1A) => { class!(THX) };
    (0x1B) => { class!(TME) };
    (0x1C) => { class!(YES) };
    (0x1D) => { class!(ADM) };
    (0x1E) => { class!(SMR) };
    ($other:literal) => { class!(OTHER) };
}

macro_rules! class_49 {
    (0x03) => { class!(LVL) };
    (0x04) => { class!(MRT) };
    (0x0B) => { class!(UNO) };
    ($other:literal) => { class!(PARAM) };
}

macro_rules! class_4a {
    (0x00) => { class!(ALY) };
    (0x01) => { class!(AND) };
    (0x02) => { class!(BWX) };
    (0x03) => { class!(DMZ) };
    (0x06) => { class!(FCT) };
    (0x0A) => { class!(IDK) };
    (0x0C) => { class!(INS) };
    (0x0E) => { class!(OCC) };
    (0x0F) => { class!(ORR) };
    (0x10) => { class!(PCE) };
    (0x13) => { class!(PRP) };
    (0x14) => { class!(QRY) };
    (0x15) => { class!(SCD) };
    (0x16) => { class!(SRY) };
    (0x17) => { class!(SUG) };
    (0x18) => { class!(THK) };
    (0x1A) => { class!(TRY) };
    (0x1C) => { class!(VSS) };
    (0x1F) => { class!(XDO) };
    ($other:literal) => { class!(OTHER) };
}

/// The classes of each of these codes, category by category: all in one list, or those of a code in a row of their own.
macro_rules! by_code {
    (in_one: $($code:tt)*) => {
        [$(
            // from 00 on
            2, 2, 2, 2, 2, 2, 2, 2, 2, 2, 2, 2, 2, 2, 2, 2, 2, 2, 2, 2, 2, 2, 2, 2, 2, 2, 2, 2, 2, 2, 2, 2,
            // from 20 on
            2, 2, 2, 2, 2, 2, 2, 2, 2, 2, 2, 2, 2, 2, 2, 2, 2, 2, 2, 2, 2, 2, 2, 2, 2, 2, 2, 2, 2, 2, 2, 2,
            // from 40 on
            class_40!($code), 3, class_42!($code), class_43!($code), 4, 5, 6, 7, class_48!($code), class_49!($code),
            class_4a!($code), 8, 78, 78, 78, 78, 9, 9, 9, 9, 9, 9, 9, 9, 78, 78, 78, 78, 78, 78, 78, 78,
            // from 60 on
            78, 78, 78, 78, 78, 78, 78, 78, 78, 78, 78, 78, 78, 78, 78, 78, 78, 78, 78, 78, 78, 78, 78, 78, 78, 78,
            78, 78, 78, 78, 78, 78,
            // from 80 on
            78, 78, 78, 78, 78, 78, 78, 78, 78, 78, 78, 78, 78, 78, 78, 78, 78, 78, 78, 78, 78, 78, 78, 78, 78, 78,
            78, 78, 78, 78, 78, 78,
            // from A0 on
            78, 78, 78, 78, 78, 78, 78, 78, 78, 78, 78, 78, 78, 78, 78, 78, 78, 78, 78, 78, 78, 78, 78, 78, 78, 78,
            78, 78, 78, 78, 78, 78,
            // from C0 on
            78, 78, 78, 78, 78, 78, 78, 78, 78, 78, 78, 78, 78, 78, 78, 78, 78, 78, 78, 78, 78, 78, 78, 78, 78, 78,
            78, 78, 78, 78, 78, 78,
            // from E0 on
            78, 78, 78, 78, 78, 78, 78, 78, 78, 78, 78, 78, 78, 78, 78, 78, 78, 78, 78, 78, 78, 78, 78, 78, 78, 78,
            78, 78, 78, 78, 78, 78,
        )*]
    };
    (in_rows: $($code:tt)*) => {
        [$([
            // from 00 on
            2, 2, 2, 2, 2, 2, 2, 2, 2, 2, 2, 2, 2, 2, 2, 2, 2, 2, 2, 2, 2, 2, 2, 2, 2, 2, 2, 2, 2, 2, 2, 2,
            // from 20 on
            2, 2, 2, 2, 2, 2, 2, 2, 2, 2, 2, 2, 2, 2, 2, 2, 2, 2, 2, 2, 2, 2, 2, 2, 2, 2, 2, 2, 2, 2, 2, 2,
            // from 40 on
            class_40!($code), 3, class_42!($code), class_43!($code), 4, 5, 6, 7, class_48!($code), class_49!($code),
            class_4a!($code), 8, 78, 78, 78, 78, 9, 9, 9, 9, 9, 9, 9, 9, 78, 78, 78, 78, 78, 78, 78, 78,
            // from 60 on
            78, 78, 78, 78, 78, 78, 78, 78, 78, 78, 78, 78, 78, 78, 78, 78, 78, 78, 78, 78, 78, 78, 78, 78, 78, 78,
            78, 78, 78, 78, 78, 78,
            // from 80 on
            78, 78, 78, 78, 78, 78, 78, 78, 78, 78, 78, 78, 78, 78, 78, 78, 78, 78, 78, 78, 78, 78, 78, 78, 78, 78,
            78, 78, 78, 78, 78, 78,
            // from A0 on
            78, 78, 78, 78, 78, 78, 78, 78, 78, 78, 78, 78, 78, 78, 78, 78, 78, 78, 78, 78, 78, 78, 78, 78, 78, 78,
            78, 78, 78, 78, 78, 78,
            // from C0 on
            78, 78, 78, 78, 78, 78, 78, 78, 78, 78, 78, 78, 78, 78, 78, 78, 78, 78, 78, 78, 78, 78, 78, 78, 78, 78,
            78, 78, 78, 78, 78, 78,
            // from E0 on
            78, 78, 78, 78, 78, 78, 78, 78, 78, 78, 78, 78, 78, 78, 78, 78, 78, 78, 78, 78, 78, 78, 78, 78, 78, 78,
            78, 78, 78, 78, 78, 78,
        ]),*]
    };
}

/// The numbers of the classes of all tokens: code by code, and there category by category.
macro_rules! classes {
    ($shape:ident) => {
        by_code! {
            $shape:
            0x00 0x01 0x02 0x03 0x04 0x05 0x06 0x07 0x08 0x09 0x0A 0x0B 0x0C 0x0D 0x0E 0x0F 0x10 0x11 0x12 0x13 0x14
            0x15 0x16 0x17 0x18 0x19 0x1A 0x1B 0x1C 0x1D 0x1E 0x1F 0x20 0x21 0x22 0x23 0x24 0x25 0x26 0x27 0x28 0x29
            0x2A 0x2B 0x2C 0x2D 0x2E 0x2F 0x30 0x31 0x32 0x33 0x34 0x35 0x36 0x37 0x38 0x39 0x3A 0x3B 0x3C 0x3D 0x3E
            0x3F 0x40 0x41 0x42 0x43 0x44 0x45 0x46 0x47 0x48 0x49 0x4A 0x4B 0x4C 0x4D 0x4E 0x4F 0x50 0x51 0x52 0x53
            0x54 0x55 0x56 0x57 0x58 0x59 0x5A 0x5B 0x5C 0x5D 0x5E 0x5F 0x60 0x61 0x62 0x63 0x64 0x65 0x66 0x67 0x68
            0x69 0x6A 0x6B 0x6C 0x6D 0x6E 0x6F 0x70 0x71 0x72 0x73 0x74 0x75 0x76 0x77 0x78 0x79 0x7A 0x7B 0x7C 0x7D
            0x7E 0x7F 0x80 0x81 0x82 0x83 0x84 0x85 0x86 0x87 0x88 0x89 0x8A 0x8B 0x8C 0x8D 0x8E 0x8F 0x90 0x91 0x92
            0x93 0x94 0x95 0x96 0x97 0x98 0x99 0x9A 0x9B 0x9C 0x9D 0x9E 0x9F 0xA0 0xA1 0xA2 0xA3 0xA4 0xA5 0xA6 0xA7
            0xA8 0xA9 0xAA 0xAB 0xAC 0xAD 0xAE 0xAF 0xB0 0xB1 0xB2 0xB3 0xB4 0xB5 0xB6 0xB7 0xB8 0xB9 0xBA 0xBB 0xBC
            0xBD 0xBE 0xBF 0xC0 0xC1 0xC2 0xC3 0xC4 0xC5 0xC6 0xC7 0xC8 0xC9 0xCA 0xCB 0xCC 0xCD 0xCE 0xCF 0xD0 0xD1
            0xD2 0xD3 0xD4 0xD5 0xD6 0xD7 0xD8 0xD9 0xDA 0xDB 0xDC 0xDD 0xDE 0xDF 0xE0 0xE1 0xE2 0xE3 0xE4 0xE5 0xE6
            0xE7 0xE8 0xE9 0xEA 0xEB 0xEC 0xED 0xEE 0xEF 0xF0 0xF1 0xF2 0xF3 0xF4 0xF5 0xF6 0xF7 0xF8 0xF9 0xFA 0xFB
            0xFC 0xFD 0xFE 0xFF
        }
    };
}

pub(crate) use by_code;
pub(crate) use class;
pub(crate) use class_4a;
pub(crate) use class_40;
pub(crate) use class_42;
pub(crate) use class_43;
pub(crate) use class_48;
pub(crate) use class_49;
pub(crate) use classes;
