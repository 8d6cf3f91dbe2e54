//! Chain files that are read.
use chain_files::{ChainFault, bases_are_of_the_file, read_complex, texts_have_one_outcome};
use field_mod::Field;
use std::alloc::Global;

// The projective plane: one generator in each degree, and twice the one of degree 1 bounds.
const PLANE: &str = "chain complex\nmax dimension 2\ndimension 0: 1\ndimension 1: 1\n# 1 = 0\n\
    dimension 2: 1\n# 1 = 2 * 1\n";

// Each boundary is the generator below.
const NO_COMPLEX: &str = "chain complex\nmax dimension 2\ndimension 0: 1\ndimension 1: 1\n\
    # 1 = 1 * 1\ndimension 2: 1\n# 1 = 1 * 1\n";

// Whether a text is read modulo P, and the boundary of a generator has these terms.
fn has<const P: u16>(alloc: Global, text: &str, generator: u32, wanted: &[(u32, u16)]) -> bool {
    let Some(field) = Field::<P>::get() else {
        return false;
    };
    let Ok(file) = read_complex(alloc, field, text.as_bytes()) else {
        return false;
    };
    let complex = file.into_complex();
    if generator >= complex.len() {
        return false;
    }
    match complex.boundary(generator).to_vec(alloc) {
        Ok(terms) => terms.as_slice() == wanted,
        Err(_) => false,
    }
}

// How many generators a text has in a degree, if it is read.
fn count(alloc: Global, text: &str, degree: u8) -> Option<u32> {
    let field = Field::<2>::get()?;
    let file = read_complex(alloc, field, text.as_bytes()).ok()?;
    if degree <= file.top() {
        Some(file.count(degree))
    } else {
        None
    }
}

// The fault of a text modulo P, if it has one.
fn fault<const P: u16>(alloc: Global, text: &str) -> Option<ChainFault> {
    let field = Field::<P>::get()?;
    read_complex(alloc, field, text.as_bytes()).err()
}

#[test]
fn the_projective_plane(rt: HostRuntime) {
    let alloc = rt.alloc();
    assert!(rt; has::<2>(alloc, PLANE, 2, &[]));
    assert!(rt; has::<3>(alloc, PLANE, 2, &[(1, 2)]));
    assert!(rt; has::<3>(alloc, PLANE, 1, &[]));
    for degree in 0..3 {
        assert_eq!(rt; count(alloc, PLANE, degree), Some(1));
    }
    assert_eq!(rt; count(alloc, PLANE, 3), None);
}

#[test]
fn terms_are_summed_modulo_the_prime(rt: HostRuntime) {
    for (text, wanted) in [
        ("# 1 = 1 * 1 + 1 * 1", [(0, 2)].as_slice()),
        ("# 1 = 1 * 2 + 1 * 1", [(0, 1), (1, 1)].as_slice()),
        ("# 1 = -1 * 2", [(1, 2)].as_slice()),
        ("# 1 = 0 * 2", [].as_slice()),
        ("# 1 = 00", [].as_slice()),
        ("# 1 = -0", [].as_slice()),
        ("# 1 = 1 * 1 + 0 * 2 + 2 * 1", [].as_slice()),
        ("# 1 = 9223372036854775807 * 1", [(0, 1)].as_slice()),
        ("# 1 = -9223372036854775808 * 1", [(0, 1)].as_slice()),
        ("# 1 = 5 * 002", [(1, 2)].as_slice()),
        ("# 2 = 1 * 1", [].as_slice()),
    ] {
        let mut file = String::new(rt.alloc());
        let ready = file
            .push_str("chain complex;no\nmax,dimension 1 dimension 0:2 dimension 1 : 2\n")
            .is_ok()
            && file.push_str(text).is_ok();
        assert!(rt;
            ready && has::<3>(rt.alloc(), &file, 2, wanted),
            "in {text:?}"
        );
    }
}

#[test]
fn degrees_without_generators(rt: HostRuntime) {
    let text = "chain complex max dimension 3 dimension 0: 0 dimension 1: 2 # 2 = 0 \
        dimension 2: 00 dimension 3: 1";
    for (degree, wanted) in [(0, 0), (1, 2), (2, 0), (3, 1)] {
        assert_eq!(rt; count(rt.alloc(), text, degree), Some(wanted));
    }
}

#[test]
fn boundaries_of_boundaries(rt: HostRuntime) {
    let alloc = rt.alloc();
    let wanted = Some(ChainFault::NotComplex {
        degree: 2,
        generator: 1,
        at: 1,
        value: 1,
    });
    assert_eq!(rt; fault::<2>(alloc, NO_COMPLEX), wanted);
    assert_eq!(rt; fault::<3>(alloc, NO_COMPLEX), wanted);
    for (rest, degree, generator, at, value) in [
        (
            "# 1 = 1 * 1 + -1 * 2 # 2 = 3 * 2 dimension 2: 2 # 2 = 1 * 1 + 1 * 2 dimension 3: 0",
            2,
            2,
            1,
            1,
        ),
        (
            "# 1 = 1 * 1 + -1 * 2 # 2 = 3 * 2 dimension 2: 2 # 2 = 1 * 1 + 1 * 2 # 1 = 3 * 2 \
                dimension 3: 0",
            2,
            1,
            2,
            4,
        ),
        (
            "# 2 = 1 * 1 dimension 2: 1 # 1 = 1 * 1 dimension 3: 1 # 1 = 1 * 1",
            3,
            1,
            1,
            1,
        ),
        (
            "# 2 = 1 * 2 dimension 2: 3 # 3 = 2 * 2 + 5 * 1 dimension 3: 1 # 1 = 1 * 3",
            2,
            3,
            2,
            2,
        ),
        (
            "# 1 = 1 * 2 # 2 = 1 * 1 dimension 2: 1 # 1 = 1 * 1 + 4 * 2 dimension 3: 0",
            2,
            1,
            1,
            4,
        ),
    ] {
        let mut file = String::new(alloc);
        let ready = file
            .push_str("chain complex max dimension 3 dimension 0: 2 dimension 1: 2 ")
            .is_ok()
            && file.push_str(rest).is_ok();
        let wanted = ChainFault::NotComplex {
            degree,
            generator,
            at,
            value,
        };
        assert!(rt;
            ready && fault::<5>(alloc, &file) == Some(wanted),
            "in {rest:?}"
        );
    }
}

#[test]
fn laws_hold() {
    texts_have_one_outcome();
    bases_are_of_the_file();
}
