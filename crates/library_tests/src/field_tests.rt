//! The field at some of its moduli.
use field_mod::{Field, MODULI};
use std::test::Fail;

#[test]
fn a_field_is_one_of_the_table(rt: HostRuntime) {
    assert!(rt; Field::<4>::get().is_none() && Field::<1>::get().is_none());
    assert!(rt; Field::<49>::get().is_none() && Field::<47>::get().is_some());
    assert!(rt; MODULI.len() == 15);
}

#[test]
fn arithmetic_modulo_seven(rt: HostRuntime) -> Result<(), Fail> {
    let field = Field::<7>::get().ok_or("7 is in the table")?;
    assert!(rt; field.add(5, 4) == 2 && field.sub(2, 5) == 4 && field.mul(5, 4) == 6);
    assert!(rt; field.neg(0) == 0 && field.neg(3) == 4 && field.inv(3) == 5);
    assert!(rt; field.of_i64(-1) == 6 && field.of_i64(i64::MIN) == 6);
    Ok(())
}
