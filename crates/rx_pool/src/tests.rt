use crate::Region;
use std::test::Fail;

#[test]
fn each_slot_keeps_its_bytes(rt: HostRuntime) -> Result<(), Fail> {
    let mut region = Region::make(rt.alloc(), 2, 4)?;
    assert_eq!(rt; region.free(), 2);
    let first = region.take();
    region.bytes_mut(&first).copy_from_slice(&[1, 2, 3, 4]);
    let second = region.take();
    region.bytes_mut(&second).copy_from_slice(&[5, 6, 7, 8]);
    assert_eq!(rt; region.free(), 0);
    region.give(first);
    assert_eq!(rt; region.free(), 1);
    assert_eq!(rt; region.bytes(&second), [5, 6, 7, 8].as_slice());
    Ok(())
}

#[test]
fn a_slot_gets_the_bytes_of_another(rt: HostRuntime) -> Result<(), Fail> {
    let mut region = Region::make(rt.alloc(), 3, 2)?;
    let low = region.take();
    let high = region.take();
    region.bytes_mut(&low).copy_from_slice(&[1, 2]);
    assert_eq!(rt; region.bytes(&high), [0, 0].as_slice(), "never written");
    region.copy(&low, &high);
    assert_eq!(rt; region.bytes(&high), [1, 2].as_slice());
    region.bytes_mut(&high)[0] = 3;
    region.copy(&high, &low);
    assert_eq!(rt; region.bytes(&low), [3, 2].as_slice());
    region.copy(&low, &low);
    assert_eq!(rt; region.bytes(&low), [3, 2].as_slice(), "on itself");
    Ok(())
}
