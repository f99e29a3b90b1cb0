use compiler::{Builds, CompileFault, compile};
use puya_base::{At, Level, Place, Refusal, Rule};
use std::alloc::Global;
use std::test::Fail;

const HEAD: &str = "from algopy import Contract, UInt64\n";

const PROGRAMS: &str = "    def approval_program(self) -> UInt64:
        return UInt64(6) * UInt64(7)
    def clear_state_program(self) -> UInt64:
        return UInt64(1)
";

fn built(alloc: Global, class: &str, programs: &str) -> Result<Result<Builds, CompileFault>, Fail> {
    let source = format!(in alloc; "{HEAD}{class}{programs}")?;
    if source.len() > 1048576 {
        return Ok(Err(CompileFault::Memory));
    }
    Ok(compile(alloc, source.as_bytes(), Level::L1))
}

#[test]
fn a_contract_of_any_name_is_built(rt: HostRuntime) -> Result<(), Fail> {
    let alloc = rt.alloc();
    match built(alloc, "class Answer(Contract):\n", PROGRAMS)? {
        Ok(builds) => {
            assert_eq!(rt; builds.len(), 1);
            let build = builds.at(0);
            assert_eq!(rt; build.name.as_str(), "Answer");
            assert_eq!(rt;
                build.approval.as_slice(),
                b"\x0a\x81\x06\x81\x07\x0b\x43".as_slice()
            );
            assert_eq!(rt; build.clear.as_slice(), b"\x0a\x81\x01\x43".as_slice());
            assert!(rt; build.arc56.is_none());
        }
        Err(fault) => assert!(rt; false, "{fault:?}"),
    }
    Ok(())
}

/// Whether a source is built or has a form that is not compiled yet, if it breaks no rule.
fn is_built(alloc: Global, class: &str, programs: &str) -> Result<Option<bool>, Fail> {
    Ok(match built(alloc, class, programs)? {
        Ok(_) => Some(true),
        Err(CompileFault::NotBuilt) => Some(false),
        Err(_) => None,
    })
}

const SPELLED: &str = "    'says nothing'
    def approval_program(self) -> UInt64: # the answer
        '''says
nothing'''
        return UInt64 ( 0x6 )*UInt64(0b111)

    def clear_state_program(
        self) -> UInt64: return UInt64(2) if False else UInt64(1)
";

#[test]
fn what_says_nothing_is_free(rt: HostRuntime) -> Result<(), Fail> {
    let alloc = rt.alloc();
    let spelled = SPELLED.replace(alloc, "UInt64(2) if False else UInt64(1)", "UInt64(0b1)")?;
    assert_eq!(rt;
        is_built(
            alloc,
            "\"\"\"a\"\"\"\n\nclass T(Contract):\n",
            spelled.as_str()
        )?,
        Some(true)
    );
    assert_eq!(rt;
        is_built(alloc, "class T(Contract):\n", SPELLED)?,
        Some(false)
    );
    Ok(())
}

#[test]
fn another_form_is_not_built_yet(rt: HostRuntime) -> Result<(), Fail> {
    let alloc = rt.alloc();
    assert_eq!(rt;
        is_built(alloc, "class T(ARC4Contract):\n", PROGRAMS)?,
        Some(false)
    );
    assert_eq!(rt;
        is_built(alloc, "x = 1\nclass T(Contract):\n", PROGRAMS)?,
        Some(false)
    );
    let other = PROGRAMS.replace(alloc, " * ", " - ")?;
    assert_eq!(rt;
        is_built(alloc, "class T(Contract):\n", other.as_str())?,
        Some(false)
    );
    let other = PROGRAMS.replace(alloc, "UInt64(1)", "UInt64(2)")?;
    assert_eq!(rt;
        is_built(alloc, "class T(Contract):\n", other.as_str())?,
        Some(false)
    );
    let other = PROGRAMS.replace(alloc, "(self)", "(self,)")?;
    assert_eq!(rt;
        is_built(alloc, "class T(Contract):\n", other.as_str())?,
        Some(false)
    );
    Ok(())
}

/// The rule that a source breaks, and where.
fn refusal(alloc: Global, source: &str) -> Option<Refusal> {
    if source.len() > 1048576 {
        return None;
    }
    match compile(alloc, source.as_bytes(), Level::L1) {
        Err(CompileFault::Refused(refusal)) => Some(refusal),
        _ => None,
    }
}

#[test]
fn the_first_broken_rule_is_answered(rt: HostRuntime) -> Result<(), Fail> {
    let alloc = rt.alloc();
    let syntax = Refusal {
        rule: Rule::P07,
        place: Place { line: 1, col: 5 },
    };
    assert_eq!(rt; refusal(alloc, "x = y"), Some(syntax));
    let number = Refusal {
        rule: Rule::P05,
        place: Place { line: 2, col: 5 },
    };
    assert_eq!(rt; refusal(alloc, "x = y\nz = 08"), Some(number));
    Ok(())
}
