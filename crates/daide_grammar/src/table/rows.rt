//! What each class of tokens means to each symbol. Printed by `scripts/print-table`; the check is what is trusted.
//!
//! A row has a symbol's name. It lists classes, each with a cell, and last what every other class means. A cell has two
//! bytes: the number of the first symbol that the rule leaves, or 0 if it leaves none, and then the number of the rule. A
//! symbol with a level has a row for all levels and, where more may stand from a level on, a row with that level in its
//! name, which adds to the one before; its rules and symbols that name a level are those of level 0, and the level's
//! place among the levels is added.

use crate::table::classes::{
    BRACKETS, by_code, class, class_4a, class_40, class_42, class_43, class_48, class_49, classes,
};
use crate::table::rules::{FIRSTS, GROWTHS, LENGTHS, RESTS};
use crate::table::{Linked, Table};

macro_rules! closing {
    (KET) => { 0x0002 };
    ($other:ident) => { 0x0000 };
}

macro_rules! one_power {
    (POWER) => { 0x0002 };
    ($other:ident) => { 0x0000 };
}

macro_rules! one_province {
    (PROVINCE) => { 0x0002 };
    ($other:ident) => { 0x0000 };
}

macro_rules! one_coast {
    (COAST) => { 0x0002 };
    ($other:ident) => { 0x0000 };
}

macro_rules! one_number {
    (NUM) => { 0x0002 };
    ($other:ident) => { 0x0000 };
}

macro_rules! one_note {
    (NOTE) => { 0x0002 };
    ($other:ident) => { 0x0000 };
}

macro_rules! one_fleet {
    (FLT) => { 0x0002 };
    ($other:ident) => { 0x0000 };
}

macro_rules! waived {
    (WVE) => { 0x0002 };
    ($other:ident) => { 0x0000 };
}

macro_rules! convoy_to {
    (CTO) => { 0x0002 };
    ($other:ident) => { 0x0000 };
}

macro_rules! through {
    (VIA) => { 0x0002 };
    ($other:ident) => { 0x0000 };
}

macro_rules! against {
    (VSS) => { 0x0002 };
    ($other:ident) => { 0x0000 };
}

macro_rules! text_group {
    (BRA) => { 0x0C03 };
    ($other:ident) => { 0x0000 };
}

macro_rules! texts {
    (TEXT) => { 0x0C04 };
    ($other:ident) => { 0x0001 };
}

macro_rules! power_group {
    (BRA) => { 0x0105 };
    ($other:ident) => { 0x0000 };
}

macro_rules! powers_group {
    (BRA) => { 0x0106 };
    ($other:ident) => { 0x0000 };
}

macro_rules! maybe_powers_group {
    (BRA) => { 0x0106 };
    ($other:ident) => { 0x0001 };
}

macro_rules! powers {
    (POWER) => { 0x1007 };
    ($other:ident) => { 0x0001 };
}

macro_rules! number_group {
    (BRA) => { 0x0408 };
    ($other:ident) => { 0x0000 };
}

macro_rules! maybe_number_group {
    (BRA) => { 0x0408 };
    ($other:ident) => { 0x0001 };
}

macro_rules! maybe_number {
    (NUM) => { 0x0002 };
    ($other:ident) => { 0x0001 };
}

macro_rules! provinces_group {
    (BRA) => { 0x0209 };
    ($other:ident) => { 0x0000 };
}

macro_rules! maybe_provinces_group {
    (BRA) => { 0x160A };
    ($other:ident) => { 0x0000 };
}

macro_rules! provinces {
    (PROVINCE) => { 0x160B };
    ($other:ident) => { 0x0001 };
}

macro_rules! turn_group {
    (BRA) => { 0x180C };
    ($other:ident) => { 0x0000 };
}

macro_rules! one_turn {
    (SEASON) => { 0x040D };
    ($other:ident) => { 0x0000 };
}

macro_rules! words_group {
    (BRA) => { 0x1A0E };
    ($other:ident) => { 0x0000 };
}

macro_rules! word_list {
    (BRA) => { 0x0001 };
    (KET) => { 0x0001 };
    ($other:ident) => { 0x1A0F };
}

macro_rules! any_group {
    (BRA) => { 0x1C10 };
    ($other:ident) => { 0x0000 };
}

macro_rules! any {
    (BRA) => { 0x1C11 };
    (KET) => { 0x0001 };
    ($other:ident) => { 0x1C12 };
}

macro_rules! one_place {
    (BRA) => { 0x0213 };
    (PROVINCE) => { 0x0002 };
    ($other:ident) => { 0x0000 };
}

macro_rules! places_group {
    (BRA) => { 0x1F14 };
    ($other:ident) => { 0x0000 };
}

macro_rules! places {
    (BRA) => { 0x0215 };
    (PROVINCE) => { 0x1F16 };
    ($other:ident) => { 0x0001 };
}

macro_rules! unit_group {
    (BRA) => { 0x2217 };
    ($other:ident) => { 0x0000 };
}

macro_rules! unit_groups {
    (BRA) => { 0x2218 };
    ($other:ident) => { 0x0001 };
}

macro_rules! one_unit {
    (POWER) => { 0x2319 };
    ($other:ident) => { 0x0000 };
}

macro_rules! unit_type {
    (AMY) => { 0x0002 };
    (FLT) => { 0x0002 };
    ($other:ident) => { 0x0000 };
}

macro_rules! order_group {
    (BRA) => { 0x261A };
    ($other:ident) => { 0x0000 };
}

macro_rules! orders {
    (BRA) => { 0x261B };
    ($other:ident) => { 0x0001 };
}

macro_rules! one_order {
    (BRA) => { 0x221C };
    (POWER) => { 0x071D };
    ($other:ident) => { 0x0000 };
}

macro_rules! order_tail {
    (CTO) => { 0x021E };
    (CVY) => { 0x201F };
    (HLD) => { 0x0002 };
    (MTO) => { 0x1D20 };
    (SUP) => { 0x2021 };
    (DSB) => { 0x0002 };
    (RTO) => { 0x1D20 };
    (BLD) => { 0x0002 };
    (REM) => { 0x0002 };
    ($other:ident) => { 0x0000 };
}

macro_rules! support_tail {
    (MTO) => { 0x0222 };
    ($other:ident) => { 0x0001 };
}

macro_rules! share_group {
    (BRA) => { 0x0123 };
    ($other:ident) => { 0x0000 };
}

macro_rules! shares {
    (BRA) => { 0x0124 };
    ($other:ident) => { 0x0001 };
}

macro_rules! submit_tail {
    (BRA) => { 0x2C25 };
    ($other:ident) => { 0x0001 };
}

macro_rules! submit_first {
    (BRA) => { 0x2226 };
    (POWER) => { 0x0727 };
    (SEASON) => { 0x0428 };
    ($other:ident) => { 0x0000 };
}

macro_rules! cancel_group {
    (BRA) => { 0x2E29 };
    ($other:ident) => { 0x0000 };
}

macro_rules! cancel {
    (DRW) => { 0x0F2A };
    (GOF) => { 0x0002 };
    (SUB) => { 0x2B2B };
    (TME) => { 0x122C };
    ($other:ident) => { 0x0000 };
}

macro_rules! reply_group {
    (BRA) => { 0x302D };
    ($other:ident) => { 0x0000 };
}

macro_rules! reply {
    (LOD) => { 0x0B2E };
    (MAP) => { 0x0B2E };
    (SVE) => { 0x0B2E };
    ($other:ident) => { 0x0000 };
}

macro_rules! who_group {
    (BRA) => { 0x322F };
    ($other:ident) => { 0x0000 };
}

macro_rules! who {
    (POWER) => { 0x0002 };
    (UNO) => { 0x0002 };
    ($other:ident) => { 0x0000 };
}

macro_rules! params_group {
    (BRA) => { 0x3430 };
    ($other:ident) => { 0x0000 };
}

macro_rules! params {
    (BRA) => { 0x3531 };
    ($other:ident) => { 0x0001 };
}

macro_rules! one_param {
    (LVL) => { 0x1332 };
    (MRT) => { 0x1332 };
    (UNO) => { 0x1332 };
    (PARAM) => { 0x1332 };
    ($other:ident) => { 0x0000 };
}

macro_rules! centres_group {
    (BRA) => { 0x3733 };
    ($other:ident) => { 0x0000 };
}

macro_rules! owners_group {
    (BRA) => { 0x3834 };
    ($other:ident) => { 0x0000 };
}

macro_rules! owners {
    (BRA) => { 0x3935 };
    ($other:ident) => { 0x0001 };
}

macro_rules! owned {
    (BRA) => { 0x0136 };
    (POWER) => { 0x160B };
    (UNO) => { 0x160B };
    ($other:ident) => { 0x0000 };
}

macro_rules! borders_group {
    (BRA) => { 0x3B37 };
    ($other:ident) => { 0x0000 };
}

macro_rules! borders_list {
    (BRA) => { 0x3C38 };
    ($other:ident) => { 0x0001 };
}

macro_rules! borders {
    (PROVINCE) => { 0x3D39 };
    ($other:ident) => { 0x0000 };
}

macro_rules! kind_list {
    (BRA) => { 0x3E3A };
    ($other:ident) => { 0x0001 };
}

macro_rules! kind_places {
    (BRA) => { 0x063B };
    (AMY) => { 0x1F16 };
    (FLT) => { 0x1F16 };
    ($other:ident) => { 0x0000 };
}

macro_rules! stands {
    (BRA) => { 0x403C };
    ($other:ident) => { 0x0001 };
}

macro_rules! one_stand {
    (POWER) => { 0x233D };
    ($other:ident) => { 0x0000 };
}

macro_rules! stand_tail {
    (MRT) => { 0x1E3E };
    ($other:ident) => { 0x0001 };
}

macro_rules! missing_tail {
    (BRA) => { 0x433F };
    ($other:ident) => { 0x0001 };
}

macro_rules! missing_first {
    (NUM) => { 0x0040 };
    (POWER) => { 0x2341 };
    ($other:ident) => { 0x0000 };
}

macro_rules! note_group {
    (BRA) => { 0x0542 };
    ($other:ident) => { 0x0000 };
}

macro_rules! outcomes_group {
    (BRA) => { 0x4743 };
    ($other:ident) => { 0x0000 };
}

macro_rules! outcomes {
    (NOTE) => { 0x4644 };
    (OUTCOME) => { 0x4644 };
    ($other:ident) => { 0x0001 };
}

macro_rules! one_outcome {
    (NOTE) => { 0x0002 };
    (OUTCOME) => { 0x0002 };
    ($other:ident) => { 0x0000 };
}

macro_rules! civil_disorder_group {
    (BRA) => { 0x4945 };
    ($other:ident) => { 0x0000 };
}

macro_rules! civil_disorder {
    (CCD) => { 0x0D46 };
    ($other:ident) => { 0x0000 };
}

macro_rules! players {
    (BRA) => { 0x4B47 };
    ($other:ident) => { 0x0001 };
}

macro_rules! one_player {
    (POWER) => { 0x0B48 };
    ($other:ident) => { 0x0000 };
}

macro_rules! arrangement_group {
    (BRA $place:literal) => { 0x5361 + 0x0101 * $place };
    ($other:ident $place:literal) => { 0x0000 };
}

macro_rules! arrangement {
    (DRW $place:literal) => { 0x0F2A };
    (NOT $place:literal) => { 0x4C68 + 0x0101 * $place };
    (SLO $place:literal) => { 0x0D46 };
    (ALY $place:literal) => { 0x0E49 };
    (PCE $place:literal) => { 0x0E4A };
    ($other:ident $place:literal) => { 0x0000 };
}

macro_rules! arrangement_20 {
    (DMZ $place:literal) => { 0x0E4B };
    (XDO $place:literal) => { 0x244C };
    ($other:ident $place:literal) => { arrangement!($other $place) };
}

macro_rules! arrangement_30 {
    (AND $place:literal) => { 0x686F + 0x0101 * $place };
    (ORR $place:literal) => { 0x686F + 0x0101 * $place };
    ($other:ident $place:literal) => { arrangement_20!($other $place) };
}

macro_rules! arrangement_40 {
    (OCC $place:literal) => { 0x204D };
    (SCD $place:literal) => { 0x294E };
    ($other:ident $place:literal) => { arrangement_30!($other $place) };
}

macro_rules! fact_group {
    (BRA $place:literal) => { 0x6176 + 0x0101 * $place };
    ($other:ident $place:literal) => { 0x0000 };
}

macro_rules! fact {
    (DRW $place:literal) => { 0x0F2A };
    (NOT $place:literal) => { 0x4C68 + 0x0101 * $place };
    (SLO $place:literal) => { 0x0D46 };
    (ALY $place:literal) => { 0x0E49 };
    (PCE $place:literal) => { 0x0E4A };
    ($other:ident $place:literal) => { 0x0000 };
}

macro_rules! fact_20 {
    (DMZ $place:literal) => { 0x0E4B };
    (XDO $place:literal) => { 0x244C };
    ($other:ident $place:literal) => { fact!($other $place) };
}

macro_rules! fact_30 {
    (AND $place:literal) => { 0x686F + 0x0101 * $place };
    (ORR $place:literal) => { 0x686F + 0x0101 * $place };
    ($other:ident $place:literal) => { fact_20!($other $place) };
}

macro_rules! fact_40 {
    (OCC $place:literal) => { 0x204D };
    (SCD $place:literal) => { 0x294E };
    ($other:ident $place:literal) => { fact_30!($other $place) };
}

macro_rules! fact_60 {
    (NOT $place:literal) => { 0x5A7D + 0x0101 * $place };
    (QRY $place:literal) => { 0x4C68 + 0x0101 * $place };
    ($other:ident $place:literal) => { fact_40!($other $place) };
}

macro_rules! operand_group {
    (BRA $place:literal) => { 0x7684 + 0x0101 * $place };
    ($other:ident $place:literal) => { 0x0000 };
}

macro_rules! operands {
    (BRA $place:literal) => { 0x768B + 0x0101 * $place };
    ($other:ident $place:literal) => { 0x0001 };
}

macro_rules! operand {
    (DRW $place:literal) => { 0x0F2A };
    (NOT $place:literal) => { 0x6892 + 0x0101 * $place };
    (SLO $place:literal) => { 0x0D46 };
    (ALY $place:literal) => { 0x0E49 };
    (PCE $place:literal) => { 0x0E4A };
    ($other:ident $place:literal) => { 0x0000 };
}

macro_rules! operand_20 {
    (DMZ $place:literal) => { 0x0E4B };
    (XDO $place:literal) => { 0x244C };
    ($other:ident $place:literal) => { operand!($other $place) };
}

macro_rules! operand_40 {
    (OCC $place:literal) => { 0x204D };
    (SCD $place:literal) => { 0x294E };
    ($other:ident $place:literal) => { operand_20!($other $place) };
}

macro_rules! operand_50 {
    (AND $place:literal) => { 0x686F + 0x0101 * $place };
    (ORR $place:literal) => { 0x686F + 0x0101 * $place };
    ($other:ident $place:literal) => { operand_40!($other $place) };
}

macro_rules! press_group {
    (BRA $place:literal) => { 0x8499 + 0x0101 * $place };
    ($other:ident $place:literal) => { 0x0000 };
}

macro_rules! press {
    (HUH $place:literal) => { 0x1B4F };
    (REJ $place:literal) => { 0x7DA0 + 0x0101 * $place };
    (YES $place:literal) => { 0x7DA0 + 0x0101 * $place };
    (BWX $place:literal) => { 0x7DA0 + 0x0101 * $place };
    (FCT $place:literal) => { 0x5A7D + 0x0101 * $place };
    (PRP $place:literal) => { 0x4C68 + 0x0101 * $place };
    (TRY $place:literal) => { 0x1950 };
    ($other:ident $place:literal) => { 0x0000 };
}

macro_rules! press_60 {
    (IDK $place:literal) => { 0x7DA0 + 0x0101 * $place };
    (INS $place:literal) => { 0x4C68 + 0x0101 * $place };
    (QRY $place:literal) => { 0x4C68 + 0x0101 * $place };
    (SRY $place:literal) => { 0x7DA0 + 0x0101 * $place };
    (SUG $place:literal) => { 0x4C68 + 0x0101 * $place };
    (THK $place:literal) => { 0x5A7D + 0x0101 * $place };
    ($other:ident $place:literal) => { press!($other $place) };
}

macro_rules! send_group {
    (BRA $place:literal) => { 0x99A7 + 0x0101 * $place };
    ($other:ident $place:literal) => { 0x0000 };
}

macro_rules! maybe_send_group {
    ($other:ident $place:literal) => { 0x0001 };
}

macro_rules! maybe_send_group_10 {
    (BRA $place:literal) => { 0x99A7 + 0x0101 * $place };
    ($other:ident $place:literal) => { maybe_send_group!($other $place) };
}

macro_rules! send {
    (SND $place:literal) => { 0xA0AE + 0x0101 * $place };
    ($other:ident $place:literal) => { 0x0000 };
}

macro_rules! send_tail {
    (BRA $place:literal) => { 0xA7B5 + 0x0101 * $place };
    ($other:ident $place:literal) => { 0x0000 };
}

macro_rules! send_first {
    (POWER $place:literal) => { 0x10BC + $place };
    (SEASON $place:literal) => { 0x04C3 + $place };
    ($other:ident $place:literal) => { 0x0000 };
}

macro_rules! client {
    (DRW $place:literal) => { 0x0F2A };
    (GOF $place:literal) => { 0x0002 };
    (HLO $place:literal) => { 0x0002 };
    (HST $place:literal) => { 0x1751 };
    (HUH $place:literal) => { 0x1B4F };
    (IAM $place:literal) => { 0x0D52 };
    (MAP $place:literal) => { 0x0002 };
    (MDF $place:literal) => { 0x0002 };
    (MIS $place:literal) => { 0x0002 };
    (NME $place:literal) => { 0x0B53 };
    (NOT $place:literal) => { 0x2D54 };
    (NOW $place:literal) => { 0x0002 };
    (OBS $place:literal) => { 0x0002 };
    (ORD $place:literal) => { 0x0002 };
    (REJ $place:literal) => { 0x2F55 };
    (SCO $place:literal) => { 0x0002 };
    (SUB $place:literal) => { 0x2B2B };
    (TME $place:literal) => { 0x122C };
    (YES $place:literal) => { 0x2F55 };
    (ADM $place:literal) => { 0x0B53 };
    ($other:ident $place:literal) => { 0x0000 };
}

macro_rules! client_10 {
    (SND $place:literal) => { 0xA0AE + 0x0101 * $place };
    ($other:ident $place:literal) => { client!($other $place) };
}

macro_rules! request_group {
    (BRA $place:literal) => { 0xBCCA + 0x0101 * $place };
    ($other:ident $place:literal) => { 0x0000 };
}

macro_rules! request {
    (DRW $place:literal) => { 0x0F2A };
    (GOF $place:literal) => { 0x0002 };
    (HLO $place:literal) => { 0x0002 };
    (HST $place:literal) => { 0x1751 };
    (IAM $place:literal) => { 0x0D52 };
    (MAP $place:literal) => { 0x0002 };
    (MDF $place:literal) => { 0x0002 };
    (MIS $place:literal) => { 0x0002 };
    (NME $place:literal) => { 0x0B53 };
    (NOT $place:literal) => { 0x2D54 };
    (NOW $place:literal) => { 0x0002 };
    (OBS $place:literal) => { 0x0002 };
    (ORD $place:literal) => { 0x0002 };
    (SCO $place:literal) => { 0x0002 };
    (SUB $place:literal) => { 0x2B2B };
    (TME $place:literal) => { 0x122C };
    (ADM $place:literal) => { 0x0B53 };
    ($other:ident $place:literal) => { 0x0000 };
}

macro_rules! request_10 {
    (SND $place:literal) => { 0xA0AE + 0x0101 * $place };
    ($other:ident $place:literal) => { request!($other $place) };
}

macro_rules! server {
    (CCD $place:literal) => { 0x0DD1 + $place };
    (DRW $place:literal) => { 0x0F2A };
    (HLO $place:literal) => { 0x3156 };
    (HUH $place:literal) => { 0x1B4F };
    (LOD $place:literal) => { 0x0B2E };
    (MAP $place:literal) => { 0x0B2E };
    (MDF $place:literal) => { 0x0E57 };
    (MIS $place:literal) => { 0x4258 };
    (NOT $place:literal) => { 0x4859 };
    (NOW $place:literal) => { 0x175A };
    (OFF $place:literal) => { 0x0002 };
    (ORD $place:literal) => { 0x175B };
    (OUT $place:literal) => { 0x0DD1 + $place };
    (REJ $place:literal) => { 0xB5D8 + 0x0101 * $place };
    (SCO $place:literal) => { 0x385C };
    (SLO $place:literal) => { 0x0D46 };
    (SVE $place:literal) => { 0x0B2E };
    (THX $place:literal) => { 0x245D };
    (TME $place:literal) => { 0x115E };
    (YES $place:literal) => { 0xB5D8 + 0x0101 * $place };
    (ADM $place:literal) => { 0x0B53 };
    (SMR $place:literal) => { 0x175F };
    ($other:ident $place:literal) => { 0x0000 };
}

macro_rules! server_10 {
    (FRM $place:literal) => { 0x0DDF + $place };
    ($other:ident $place:literal) => { server!($other $place) };
}

/// A class's column: the cell of each symbol, in the order of their numbers.
macro_rules! column {
    ($class:ident) => {
        [
            closing!($class), one_power!($class), one_province!($class), one_coast!($class), one_number!($class),
            one_note!($class), one_fleet!($class), waived!($class), convoy_to!($class), through!($class),
            against!($class), text_group!($class), texts!($class), power_group!($class), powers_group!($class),
            maybe_powers_group!($class), powers!($class), number_group!($class), maybe_number_group!($class),
            maybe_number!($class), provinces_group!($class), maybe_provinces_group!($class), provinces!($class),
            turn_group!($class), one_turn!($class), words_group!($class), word_list!($class), any_group!($class),
            any!($class), one_place!($class), places_group!($class), places!($class), unit_group!($class),
            unit_groups!($class), one_unit!($class), unit_type!($class), order_group!($class), orders!($class),
            one_order!($class), order_tail!($class), support_tail!($class), share_group!($class), shares!($class),
            submit_tail!($class), submit_first!($class), cancel_group!($class), cancel!($class), reply_group!($class),
            reply!($class), who_group!($class), who!($class), params_group!($class), params!($class),
            one_param!($class), centres_group!($class), owners_group!($class), owners!($class), owned!($class),
            borders_group!($class), borders_list!($class), borders!($class), kind_list!($class), kind_places!($class),
            stands!($class), one_stand!($class), stand_tail!($class), missing_tail!($class), missing_first!($class),
            note_group!($class), outcomes_group!($class), outcomes!($class), one_outcome!($class),
            civil_disorder_group!($class), civil_disorder!($class), players!($class), one_player!($class),
            arrangement_group!($class 0), arrangement_group!($class 1), arrangement_group!($class 2),
            arrangement_group!($class 3), arrangement_group!($class 4), arrangement_group!($class 5),
            arrangement_group!($class 6),
            arrangement!($class 0), arrangement!($class 1), arrangement_20!($class 2), arrangement_30!($class 3),
            arrangement_40!($class 4), arrangement_40!($class 5), arrangement_40!($class 6),
            fact_group!($class 0), fact_group!($class 1), fact_group!($class 2), fact_group!($class 3),
            fact_group!($class 4), fact_group!($class 5), fact_group!($class 6),
            fact!($class 0), fact!($class 1), fact_20!($class 2), fact_30!($class 3), fact_40!($class 4),
            fact_40!($class 5), fact_60!($class 6),
            operand_group!($class 0), operand_group!($class 1), operand_group!($class 2), operand_group!($class 3),
            operand_group!($class 4), operand_group!($class 5), operand_group!($class 6),
            operands!($class 0), operands!($class 1), operands!($class 2), operands!($class 3), operands!($class 4),
            operands!($class 5), operands!($class 6),
            operand!($class 0), operand!($class 1), operand_20!($class 2), operand_20!($class 3),
            operand_40!($class 4), operand_50!($class 5), operand_50!($class 6),
            press_group!($class 0), press_group!($class 1), press_group!($class 2), press_group!($class 3),
            press_group!($class 4), press_group!($class 5), press_group!($class 6),
            press!($class 0), press!($class 1), press!($class 2), press!($class 3), press!($class 4),
            press!($class 5), press_60!($class 6),
            send_group!($class 0), send_group!($class 1), send_group!($class 2), send_group!($class 3),
            send_group!($class 4), send_group!($class 5), send_group!($class 6),
            maybe_send_group!($class 0), maybe_send_group_10!($class 1), maybe_send_group_10!($class 2),
            maybe_send_group_10!($class 3), maybe_send_group_10!($class 4), maybe_send_group_10!($class 5),
            maybe_send_group_10!($class 6),
            send!($class 0), send!($class 1), send!($class 2), send!($class 3), send!($class 4), send!($class 5),
            send!($class 6),
            send_tail!($class 0), send_tail!($class 1), send_tail!($class 2), send_tail!($class 3),
            send_tail!($class 4), send_tail!($class 5), send_tail!($class 6),
            send_first!($class 0), send_first!($class 1), send_first!($class 2), send_first!($class 3),
            send_first!($class 4), send_first!($class 5), send_first!($class 6),
            client!($class 0), client_10!($class 1), client_10!($class 2), client_10!($class 3), client_10!($class 4),
            client_10!($class 5), client_10!($class 6),
            request_group!($class 0), request_group!($class 1), request_group!($class 2), request_group!($class 3),
            request_group!($class 4), request_group!($class 5), request_group!($class 6),
            request!($class 0), request_10!($class 1), request_10!($class 2), request_10!($class 3),
            request_10!($class 4), request_10!($class 5), request_10!($class 6),
            server!($class 0), server_10!($class 1), server_10!($class 2), server_10!($class 3), server_10!($class 4),
            server_10!($class 5), server_10!($class 6),
        ]
    };
}

/// The columns of all classes, by value or each behind a reference.
macro_rules! columns {
    ($($link:tt)?) => {
        [
            $($link)? column!(BRA), $($link)? column!(KET), $($link)? column!(NUM), $($link)? column!(POWER),
            $($link)? column!(NOTE), $($link)? column!(OUTCOME), $($link)? column!(COAST), $($link)? column!(SEASON),
            $($link)? column!(TEXT), $($link)? column!(PROVINCE), $($link)? column!(AMY), $($link)? column!(FLT),
            $($link)? column!(CTO), $($link)? column!(CVY), $($link)? column!(HLD), $($link)? column!(MTO),
            $($link)? column!(SUP), $($link)? column!(VIA), $($link)? column!(DSB), $($link)? column!(RTO),
            $($link)? column!(BLD), $($link)? column!(REM), $($link)? column!(WVE), $($link)? column!(CCD),
            $($link)? column!(DRW), $($link)? column!(FRM), $($link)? column!(GOF), $($link)? column!(HLO),
            $($link)? column!(HST), $($link)? column!(HUH), $($link)? column!(IAM), $($link)? column!(LOD),
            $($link)? column!(MAP), $($link)? column!(MDF), $($link)? column!(MIS), $($link)? column!(NME),
            $($link)? column!(NOT), $($link)? column!(NOW), $($link)? column!(OBS), $($link)? column!(OFF),
            $($link)? column!(ORD), $($link)? column!(OUT), $($link)? column!(PRN), $($link)? column!(REJ),
            $($link)? column!(SCO), $($link)? column!(SLO), $($link)? column!(SND), $($link)? column!(SUB),
            $($link)? column!(SVE), $($link)? column!(THX), $($link)? column!(TME), $($link)? column!(YES),
            $($link)? column!(ADM), $($link)? column!(SMR), $($link)? column!(ALY), $($link)? column!(AND),
            $($link)? column!(BWX), $($link)? column!(DMZ), $($link)? column!(FCT), $($link)? column!(IDK),
            $($link)? column!(INS), $($link)? column!(OCC), $($link)? column!(ORR), $($link)? column!(PCE),
            $($link)? column!(PRP), $($link)? column!(QRY), $($link)? column!(SCD), $($link)? column!(SRY),
            $($link)? column!(SUG), $($link)? column!(THK), $($link)? column!(TRY), $($link)? column!(VSS),
            $($link)? column!(XDO), $($link)? column!(LVL), $($link)? column!(MRT), $($link)? column!(UNO),
            $($link)? column!(PARAM), $($link)? column!(OTHER), $($link)? column!(ALIEN),
            // an operator's words
            $($link)? column!(OTHER), $($link)? column!(OTHER), $($link)? column!(OTHER), $($link)? column!(OTHER),
            $($link)? column!(OTHER), $($link)? column!(OTHER), $($link)? column!(OTHER), $($link)? column!(OTHER),
            $($link)? column!(OTHER), $($link)? column!(OTHER), $($link)? column!(OTHER), $($link)? column!(OTHER),
            $($link)? column!(OTHER), $($link)? column!(OTHER), $($link)? column!(OTHER), $($link)? column!(OTHER),
        ]
    };
}

pub(crate) static TABLE: Table = Table {
    rests: RESTS,
    lengths: LENGTHS,
    firsts: FIRSTS,
    growths: GROWTHS,
    classes: classes!(in_one),
    brackets: BRACKETS,
    rows: columns!(),
};

pub(crate) static LINKED: Linked = Linked {
    rests: RESTS,
    lengths: LENGTHS,
    firsts: FIRSTS,
    growths: GROWTHS,
    classes: classes!(in_rows),
    brackets: BRACKETS,
    rows: columns!(&),
};
