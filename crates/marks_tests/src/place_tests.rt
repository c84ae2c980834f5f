// Where each security is found, and what is not found.
use crate::five::five;
use search::place::find;
use std::test::Fail;

#[test]
fn each_security_is_found_at_its_index(rt: HostRuntime) -> Result<(), Fail> {
    let market = five()?;
    assert_eq!(rt; find(&market, b"A          "), Some(0));
    assert_eq!(rt; find(&market, b"AB         "), Some(1));
    assert_eq!(rt; find(&market, b"ABC        "), Some(2));
    assert_eq!(rt; find(&market, b"B          "), Some(3));
    assert_eq!(rt; find(&market, b"BA         "), Some(4));
    Ok(())
}

#[test]
fn a_symbol_that_is_not_listed_is_not_found(rt: HostRuntime) -> Result<(), Fail> {
    let market = five()?;
    assert_eq!(rt; find(&market, b"           "), None);
    assert_eq!(rt; find(&market, b"ABD        "), None);
    assert_eq!(rt; find(&market, b"C          "), None);
    assert_eq!(rt; find(&market, b"a          "), None);
    Ok(())
}

#[test]
fn a_symbol_is_found_with_its_padding_alone(rt: HostRuntime) -> Result<(), Fail> {
    let market = five()?;
    assert_eq!(rt; find(&market, b""), None);
    assert_eq!(rt; find(&market, b"A"), None);
    assert_eq!(rt; find(&market, b"A           "), None);
    Ok(())
}
