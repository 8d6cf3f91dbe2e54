//! The lines on limits, and the numbers of statuses. All other lines are those of whole runs.
use faults::{Fault, LimitName, Status, fault_text};
use std::alloc::Global;

// Whether the fault has this line, and its own text is the line without its frame.
fn has_line(alloc: Global, fault: &Fault, line: &str) -> bool {
    let Ok(text) = fault_text(alloc, fault) else {
        return false;
    };
    let Ok(shown) = format!(in alloc; "error: {fault}\n") else {
        return false;
    };
    text.as_slice() == line.as_bytes() && shown.as_str() == line
}

#[test]
fn limits_have_their_names(rt: HostRuntime) {
    for (count, number, line) in [
        (
            LimitName::FileBytes,
            67_108_864,
            "error: limit: file-bytes: 67108864\n",
        ),
        (
            LimitName::Cubes,
            1_048_576,
            "error: limit: cubes: 1048576\n",
        ),
        (
            LimitName::Cells,
            4_194_304,
            "error: limit: cells: 4194304\n",
        ),
        (
            LimitName::MatrixEntries,
            16_777_216,
            "error: limit: matrix-entries: 16777216\n",
        ),
        (
            LimitName::Generators,
            1_048_576,
            "error: limit: generators: 1048576\n",
        ),
        (
            LimitName::Terms,
            4_194_304,
            "error: limit: terms: 4194304\n",
        ),
        (
            LimitName::Coordinates,
            1_073_741_824,
            "error: limit: coordinates: 1073741824\n",
        ),
    ] {
        let fault = Fault::Limit { count, number };
        assert!(rt; has_line(rt.alloc(), &fault, line), "in {line:?}");
    }
}

#[test]
fn statuses_have_their_numbers(rt: HostRuntime) {
    for (status, number) in [
        (Status::Done, 0),
        (Status::Words, 2),
        (Status::Text, 3),
        (Status::Read, 4),
        (Status::Write, 5),
        (Status::NoMemory, 6),
        (Status::Limit, 8),
    ] {
        assert!(rt; status.number() == number, "{number}");
    }
}
