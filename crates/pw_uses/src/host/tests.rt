//! Two users of the library, over a declaration.

use super::{Matter, asked_by_two};
use pw_decl::Declaration;
use pw_info::Info;
use pw_kinds::Interval;
use pw_premises::PremiseSet;
use pw_sessions::Reply;
use pw_testing::worlds::{OverDeclaration, over_text};
use std::alloc::Global;
use std::test::Fail;

// Two users who copy one cell to another; what is known of the first rests on a premise that one of
// them doubts.
#[derive(Drop)]
struct Copying {
    alloc: Global,
    interval: Interval,
}

impl OverDeclaration<Global> for Copying {
    type Answer = Result<Option<(Info, Info)>, Fail>;

    fn over(self, declaration: &Declaration<'_>) -> Result<Option<(Info, Info)>, Fail> {
        let names = [b"x".as_slice(), b"y".as_slice()];
        let doubted = PremiseSet::one(0);
        let Some(matter) = Matter::named(declaration, b"copy", names, self.interval, doubted) else {
            return Err("the declaration lacks something".into());
        };
        Ok(values_of(asked_by_two(self.alloc, declaration, &matter)))
    }
}

// The values of both replies, if both are values.
fn values_of(replies: Option<(Reply, Reply)>) -> Option<(Info, Info)> {
    match replies {
        Some((Reply::Value(first), Reply::Value(second))) => Some((first, second)),
        _ => None,
    }
}

// Two users, and two cells.
const TWO: &str = "workbench 1\nuser ann\nuser bob\npremise p\ncell x interval\ncell y interval\n";

#[test]
fn two_users_of_a_library(rt: HostRuntime) -> Result<(), Fail> {
    let Some(interval) = Interval::new(5, 7) else {
        return Err("no interval".into());
    };
    let copying = Copying {
        alloc: rt.alloc(),
        interval,
    };
    let replies = over_text(rt.alloc(), rt.alloc(), TWO, copying)??;
    let wanted = (
        Info::of_interval(Interval::whole()),
        Info::of_interval(interval),
    );
    assert_eq!(rt; replies, Some(wanted));
    Ok(())
}
