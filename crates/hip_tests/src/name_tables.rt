//! Names: sets that number them, and tables of values.

use hip_examples::AMPLE;
use hip_names::{NameSet, NameTable};
use std::alloc::Global;
use std::process::Abort;

/// A name that is put into a set, and whether it is new there.
struct Inserted {
    name: &'static str,
    is_new: bool,
}

const INSERTED: &[Inserted] = &[
    Inserted {
        name: "main",
        is_new: true,
    },
    Inserted {
        name: "copy",
        is_new: true,
    },
    Inserted {
        name: "main",
        is_new: false,
    },
];

/// A name, and its number in a set if it is there.
struct Numbered {
    name: &'static str,
    number: Option<usize>,
}

const NUMBERED: &[Numbered] = &[
    Numbered {
        name: "main",
        number: Some(0),
    },
    Numbered {
        name: "copy",
        number: Some(1),
    },
    Numbered {
        name: "cop",
        number: None,
    },
    Numbered {
        name: "",
        number: None,
    },
];

fn assert_inserted(rt: &impl Abort, names: &mut NameSet<'static>, cases: &[Inserted]) {
    for case in cases {
        let is_new = names.insert(case.name.as_bytes()).expect(rt, AMPLE);
        assert!(rt; is_new == case.is_new, "{}", case.name);
    }
}

fn assert_numbered(rt: &impl Abort, names: &NameSet<'_>, cases: &[Numbered]) {
    for case in cases {
        let name = case.name.as_bytes();
        assert!(rt; names.number_of(name) == case.number, "{}", case.name);
        assert!(rt;
            names.contains(name) == case.number.is_some(),
            "{}",
            case.name
        );
    }
}

#[test]
fn names_are_numbered(rt: HostRuntime) {
    let mut names = NameSet::new(rt.alloc());
    assert_inserted(&rt, &mut names, INSERTED);
    assert_numbered(&rt, &names, NUMBERED);
}

fn names_of<'a>(rt: &impl Abort, alloc: Global, names: &[&'a str]) -> NameSet<'a> {
    let mut set = NameSet::new(alloc);
    for name in names {
        set.insert(name.as_bytes()).expect(rt, AMPLE);
    }
    set
}

#[test]
fn set_within_another(rt: HostRuntime) {
    let names = names_of(&rt, rt.alloc(), &["main", "copy"]);
    let others = names_of(&rt, rt.alloc(), &["copy"]);
    assert!(rt; others.is_within(&names));
    assert!(rt; !names.is_within(&others));
}

const VALUES: &[(&str, u64)] = &[("x", 7), ("y", 8), ("x", 9)];

const FIRST_VALUES: &[(&str, Option<u64>)] = &[("x", Some(7)), ("y", Some(8)), ("z", None)];

fn table_of<'a>(rt: &impl Abort, alloc: Global, values: &[(&'a str, u64)]) -> NameTable<'a, u64> {
    let mut table = NameTable::new(alloc);
    for (name, value) in values {
        table.add(name.as_bytes(), *value).expect(rt, AMPLE);
    }
    table
}

#[test]
fn first_value_counts(rt: HostRuntime) {
    let table = table_of(&rt, rt.alloc(), VALUES);
    for (name, value) in FIRST_VALUES {
        assert!(rt; table.get(name.as_bytes()) == *value, "{name}");
    }
}
