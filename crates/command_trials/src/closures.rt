//! Commands over several packages: which are read, in which order, and how many.
use crate::decoded::decode_words;
use rx_io::{MemoryShelf, MemorySink, MemorySource};
use rx_program::{Status, run};
use std::alloc::Global;
use std::test::Fail;

// A shelf with these texts.
fn shelf_of(alloc: Global, texts: &[(&str, &[u8])]) -> Result<MemoryShelf, Fail> {
    let mut shelf = MemoryShelf::make(alloc, &[])?;
    for (name, text) in texts {
        shelf.add(alloc, name, text)?;
    }
    Ok(shelf)
}

// The status of `decode P::M` over this shelf, and what was written.
fn over(alloc: Global, mut shelf: MemoryShelf) -> Result<(Status, Vec<u8>), Fail> {
    let words = decode_words(alloc, "P::M")?;
    let mut source = MemorySource::make(alloc, b"", 8, &[])?;
    let mut sink = MemorySink::make(alloc, 4096, 64, &[])?;
    let status = run(alloc, &words, &mut shelf, &mut source, &mut sink);
    Ok((status, sink.written().to_vec(alloc)?))
}

const NO_MESSAGE: &[u8] = b"p.rflx: 8 UnknownName M\n";

#[test]
fn a_fault_of_a_third_package_is_told_with_its_file(rt: HostRuntime) -> Result<(), Fail> {
    let texts: [(&str, &[u8]); 3] = [
        ("p", b"with B;\npackage P is end P;"),
        ("b", b"with C; package B is end B;"),
        ("c", b"package C is\nend C"),
    ];
    let (status, written) = over(rt.alloc(), shelf_of(rt.alloc(), &texts)?)?;
    assert_eq!(rt; status, Status::Specification);
    assert_eq!(rt; written.as_slice(), b"c.rflx:2:6: 5 Expected\n".as_slice());
    Ok(())
}

#[test]
fn packages_are_read_in_the_order_in_which_they_are_named(rt: HostRuntime) -> Result<(), Fail> {
    let texts: [(&str, &[u8]); 4] = [
        ("p", b"with B; with C; package P is end P;"),
        ("b", b"with D; package B is end B;"),
        ("c", b"package C is %"),
        ("d", b"package D is ?"),
    ];
    let (status, written) = over(rt.alloc(), shelf_of(rt.alloc(), &texts)?)?;
    assert_eq!(rt; status, Status::Specification);
    assert_eq!(rt; written.as_slice(), b"c.rflx:1:14: 1 BadByte\n".as_slice());
    Ok(())
}

#[test]
fn a_package_that_is_named_and_absent_is_told_by_elaboration(rt: HostRuntime) -> Result<(), Fail> {
    let texts: [(&str, &[u8]); 1] = [("p", b"with B; package P is end P;")];
    let (status, written) = over(rt.alloc(), shelf_of(rt.alloc(), &texts)?)?;
    assert_eq!(rt; status, Status::Specification);
    assert_eq!(rt;
        written.as_slice(),
        b"p.rflx:1:6: 8 UnknownName B\n".as_slice()
    );
    Ok(())
}

#[test]
fn packages_that_name_each_other_are_read_once(rt: HostRuntime) -> Result<(), Fail> {
    let texts: [(&str, &[u8]); 2] = [
        ("p", b"with B; package P is end P;"),
        ("b", b"with p; with b; with P; package B is end B;"),
    ];
    let (status, written) = over(rt.alloc(), shelf_of(rt.alloc(), &texts)?)?;
    assert_eq!(rt; status, Status::Specification);
    assert_eq!(rt; written.as_slice(), NO_MESSAGE);
    Ok(())
}

#[test]
fn a_refusal_is_told_with_the_file_of_its_package(rt: HostRuntime) -> Result<(), Fail> {
    let texts: [(&str, &[u8]); 3] = [
        ("p", b"with B; with C; package P is end P;"),
        ("b", b"package B is type T is unsigned 64; end B;"),
        ("c", b"package C is type T is unsigned 64; end C;"),
    ];
    let (status, written) = over(rt.alloc(), shelf_of(rt.alloc(), &texts)?)?;
    assert_eq!(rt; status, Status::Specification);
    assert_eq!(rt;
        written.as_slice(),
        b"b.rflx:1:19: 20 BadRange T\n".as_slice()
    );
    Ok(())
}

#[test]
fn a_form_that_is_not_served_is_told_before_a_rule(rt: HostRuntime) -> Result<(), Fail> {
    let texts: [(&str, &[u8]); 2] = [
        ("p", b"with B; package P is type T is unsigned 64; end P;"),
        ("b", b"package B is type T is sequence of T; end B;"),
    ];
    let (status, written) = over(rt.alloc(), shelf_of(rt.alloc(), &texts)?)?;
    assert_eq!(rt; status, Status::Specification);
    assert_eq!(rt;
        written.as_slice(),
        b"b.rflx:1:14: 7 Unsupported sequence\n".as_slice()
    );
    Ok(())
}

// The text of a package that names so many others.
fn naming(alloc: Global, count: usize) -> Result<Vec<u8>, Fail> {
    let mut text = String::from_str(alloc, "")?;
    for k in 0..count {
        let clause = format!(in alloc; "with A{k};\n")?;
        text.push_str(clause.as_str())?;
    }
    text.push_str("package P is end P;")?;
    Ok(text.as_bytes().to_vec(alloc)?)
}

#[test]
fn a_command_has_64_packages_and_no_more(rt: HostRuntime) -> Result<(), Fail> {
    let text = naming(rt.alloc(), 63)?;
    let (status, written) = over(rt.alloc(), shelf_of(rt.alloc(), &[("p", &text)])?)?;
    assert_eq!(rt; status, Status::Specification);
    assert_eq!(rt;
        written.as_slice(),
        b"p.rflx:1:6: 8 UnknownName A0\n".as_slice()
    );
    let text = naming(rt.alloc(), 64)?;
    let (status, written) = over(rt.alloc(), shelf_of(rt.alloc(), &[("p", &text)])?)?;
    assert_eq!(rt; status, Status::Limit);
    assert_eq!(rt; written.as_slice(), b"limit: packages\n".as_slice());
    Ok(())
}

#[test]
fn a_named_package_may_be_too_long(rt: HostRuntime) -> Result<(), Fail> {
    let blank = vec![in rt.alloc(); 32u8; 1048577]?;
    let texts: [(&str, &[u8]); 2] = [("p", b"with Big; package P is end P;"), ("big", &blank)];
    let (status, written) = over(rt.alloc(), shelf_of(rt.alloc(), &texts)?)?;
    assert_eq!(rt; status, Status::Limit);
    assert_eq!(rt; written.as_slice(), b"limit: text big.rflx\n".as_slice());
    Ok(())
}
