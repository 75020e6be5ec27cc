use crate::{Command, Words, command};
use raid_base::NoMemory;
use std::alloc::Global;

/// What the words ask for, which one line holds with a space between any two.
fn asked(alloc: Global, line: &str) -> Result<Option<Command>, NoMemory> {
    let mut words = Words::new(alloc);
    for word in line.split_whitespace() {
        words.push(String::from_str(alloc, word)?)?;
    }
    command(alloc, &words)
}

#[test]
fn an_empty_word_is_none_of_the_forms(rt: HostRuntime) -> Result<(), NoMemory> {
    let mut words = Words::new(rt.alloc());
    words.push(String::new(rt.alloc()))?;
    assert!(rt; command(rt.alloc(), &words) == Ok(None));
    Ok(())
}

#[test]
fn run_with_the_report_or_the_summary(rt: HostRuntime) {
    assert!(rt; asked(rt.alloc(), "run") == Ok(Some(Command::Run { brief: false })));
    assert!(rt; asked(rt.alloc(), "run --brief") == Ok(Some(Command::Run { brief: true })));
}

#[test]
fn run_with_anything_else_is_refused(rt: HostRuntime) {
    assert!(rt; asked(rt.alloc(), "run --brief --brief") == Ok(None));
    assert!(rt; asked(rt.alloc(), "run --") == Ok(None));
    assert!(rt; asked(rt.alloc(), "run --help") == Ok(None));
    assert!(rt; asked(rt.alloc(), "run --brief=true") == Ok(None));
    assert!(rt; asked(rt.alloc(), "run --br") == Ok(None));
    assert!(rt; asked(rt.alloc(), "run -b") == Ok(None));
    assert!(rt; asked(rt.alloc(), "run run") == Ok(None));
}

#[test]
fn check_with_nothing_behind_it(rt: HostRuntime) {
    assert!(rt; asked(rt.alloc(), "check") == Ok(Some(Command::Check)));
    assert!(rt; asked(rt.alloc(), "check --brief") == Ok(None));
    assert!(rt; asked(rt.alloc(), "check --") == Ok(None));
    assert!(rt; asked(rt.alloc(), "check check") == Ok(None));
    assert!(rt; asked(rt.alloc(), "Check") == Ok(None));
}

#[test]
fn advise_in_each_spelling(rt: HostRuntime) {
    let five = Ok(Some(Command::Advise { last: 5 }));
    assert!(rt; asked(rt.alloc(), "advise --last 5") == five);
    assert!(rt; asked(rt.alloc(), "advise --last=5") == five);
    assert!(rt; asked(rt.alloc(), "advise --last 000000005") == five);
    let most = Ok(Some(Command::Advise { last: 2000 }));
    assert!(rt; asked(rt.alloc(), "advise --last 2000") == most);
}

#[test]
fn advise_without_its_option_once_is_refused(rt: HostRuntime) {
    assert!(rt; asked(rt.alloc(), "advise") == Ok(None));
    assert!(rt; asked(rt.alloc(), "advise --last") == Ok(None));
    assert!(rt; asked(rt.alloc(), "advise --last=") == Ok(None));
    assert!(rt; asked(rt.alloc(), "advise --last 0") == Ok(None));
    assert!(rt; asked(rt.alloc(), "advise --last 2001") == Ok(None));
    assert!(rt; asked(rt.alloc(), "advise --last -1") == Ok(None));
    assert!(rt; asked(rt.alloc(), "advise --last 0000000001") == Ok(None));
    assert!(rt; asked(rt.alloc(), "advise --last x") == Ok(None));
    assert!(rt; asked(rt.alloc(), "advise --last 5 --last 5") == Ok(None));
    assert!(rt; asked(rt.alloc(), "advise --last=5 --last=5") == Ok(None));
    assert!(rt; asked(rt.alloc(), "advise --last 5 5") == Ok(None));
    assert!(rt; asked(rt.alloc(), "advise 5") == Ok(None));
    assert!(rt; asked(rt.alloc(), "advise -- --last 5") == Ok(None));
    assert!(rt; asked(rt.alloc(), "advise --la 5") == Ok(None));
    assert!(rt; asked(rt.alloc(), "advise --count 5") == Ok(None));
    assert!(rt; asked(rt.alloc(), "advise --last 5 --seed 1") == Ok(None));
    assert!(rt; asked(rt.alloc(), "Advise --last 5") == Ok(None));
}

#[test]
fn another_first_word_is_refused(rt: HostRuntime) {
    assert!(rt; asked(rt.alloc(), "") == Ok(None));
    assert!(rt; asked(rt.alloc(), "--help") == Ok(None));
    assert!(rt; asked(rt.alloc(), "-h") == Ok(None));
    assert!(rt; asked(rt.alloc(), "--version") == Ok(None));
    assert!(rt; asked(rt.alloc(), "--brief run") == Ok(None));
    assert!(rt; asked(rt.alloc(), "runs") == Ok(None));
}

#[test]
fn make_in_each_order_and_spelling(rt: HostRuntime) {
    let made = Ok(Some(Command::Make { seed: 12, count: 7 }));
    assert!(rt; asked(rt.alloc(), "make --count=7 --seed 000000012") == made);
    assert!(rt; asked(rt.alloc(), "make --seed 12 --count 7") == made);
    assert!(rt; asked(rt.alloc(), "make --seed=12 --count=7") == made);
    assert!(rt; asked(rt.alloc(), "make --count 7 --seed=12") == made);
    assert!(rt;
        asked(rt.alloc(), "make --seed 1 --count 2000")
            == Ok(Some(Command::Make {
                seed: 1,
                count: 2000
            }))
    );
    assert!(rt;
        asked(rt.alloc(), "make --seed 0 --count 1")
            == Ok(Some(Command::Make { seed: 0, count: 1 }))
    );
    assert!(rt;
        asked(rt.alloc(), "make --seed 999999999 --count 1")
            == Ok(Some(Command::Make {
                seed: 999999999,
                count: 1
            }))
    );
}

#[test]
fn make_without_both_options_once_is_refused(rt: HostRuntime) {
    assert!(rt; asked(rt.alloc(), "make") == Ok(None));
    assert!(rt; asked(rt.alloc(), "make --seed 1") == Ok(None));
    assert!(rt; asked(rt.alloc(), "make --seed 1 --count") == Ok(None));
    assert!(rt; asked(rt.alloc(), "make --seed=1 --seed=1 --count=1") == Ok(None));
    assert!(rt; asked(rt.alloc(), "make --seed 1 --count 1 1") == Ok(None));
    assert!(rt; asked(rt.alloc(), "make --seed 1 --count 1 --brief") == Ok(None));
    assert!(rt; asked(rt.alloc(), "make -- --seed 1 --count 1") == Ok(None));
    assert!(rt; asked(rt.alloc(), "make --se 1 --cou 1") == Ok(None));
}

#[test]
fn numbers_outside_their_form_are_refused(rt: HostRuntime) {
    assert!(rt; asked(rt.alloc(), "make --seed 1 --count 0") == Ok(None));
    assert!(rt; asked(rt.alloc(), "make --seed 1 --count 000000000") == Ok(None));
    assert!(rt; asked(rt.alloc(), "make --seed 1 --count 2001") == Ok(None));
    assert!(rt; asked(rt.alloc(), "make --seed 1234567890 --count 1") == Ok(None));
    assert!(rt; asked(rt.alloc(), "make --seed 0000000001 --count 1") == Ok(None));
    assert!(rt; asked(rt.alloc(), "make --seed -1 --count 1") == Ok(None));
    assert!(rt; asked(rt.alloc(), "make --seed=-1 --count 1") == Ok(None));
    assert!(rt; asked(rt.alloc(), "make --seed +1 --count 1") == Ok(None));
    assert!(rt; asked(rt.alloc(), "make --seed= --count 1") == Ok(None));
}
