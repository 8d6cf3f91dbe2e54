//! The table of moduli.

/// The primes over which homology is computed, ascending. A further prime is a further number here
/// and in `specs/Moduli.antt`; no proof goes through them one by one.
pub const MODULI: [u16; 15] = [2, 3, 5, 7, 11, 13, 17, 19, 23, 29, 31, 37, 41, 43, 47];

/// Calls a function at the field of a modulus that is known to be in the table: an arm for each
/// modulus, which is read at run time.
#[macro_export]
macro_rules! by_modulus {
    ($modulus:expr, $field:ident => $body:expr) => {
        $crate::by_modulus!(@arms $modulus, $field => $body;
            2 3 5 7 11 13 17 19 23 29 31 37 41 43 47)
    };
    (@arms $modulus:expr, $field:ident => $body:expr; $($p:literal)+) => {
        match $modulus {
            $($p => {
                let $field = $crate::Field::<$p>::of_table();
                $body
            })+
            _ => unreachable!(),
        }
    };
}
