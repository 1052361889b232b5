use std::alloc::Global;
use std::test::Fail;
use sy_base::{List, Memory, Point, Text};
use sy_core::{Happening, Value, What};
use sy_story::Noted::{Known, New};
use sy_story::StoryFault::TooEarly;
use sy_story::{Story, StoryFault};

/// The event with number 0, of this amount.
fn paid(alloc: Global, point: Point, amount: i64) -> Result<Happening, Memory> {
    let mut values = List::new(alloc);
    values.push(Value::Number(amount))?;
    values.push(Value::Text(Text::new(alloc, b"cash")?))?;
    Ok(Happening {
        point,
        what: What::Event(0, values),
    })
}

fn exerted(point: Point, power: u32) -> Happening {
    Happening {
        point,
        what: What::Exert(power),
    }
}

#[test]
fn holds_each_once(rt: HostRuntime) -> Result<(), Fail> {
    let alloc = rt.alloc();
    let mut story = Story::new(alloc, 10)?;
    assert!(rt; story.is_empty());
    assert_eq!(rt; story.note(paid(alloc, 12, 100)?), Ok(New));
    assert_eq!(rt; story.note(paid(alloc, 12, 100)?), Ok(Known));
    assert_eq!(rt; story.note(paid(alloc, 12, 101)?), Ok(New));
    assert_eq!(rt; story.note(exerted(10, 4)), Ok(New));
    assert_eq!(rt; story.note(exerted(12, 4)), Ok(New));
    assert_eq!(rt; story.note(exerted(10, 4)), Ok(Known));
    assert_eq!(rt; story.note(exerted(9, 4)), Err(TooEarly));
    assert_eq!(rt; story.len(), 4);
    assert!(rt; story.holds(&exerted(12, 4)));
    assert!(rt; !story.holds(&exerted(11, 4)));
    assert!(rt; !story.holds(&exerted(12, 5)));
    assert_eq!(rt; story.at(9).len(), 0);
    assert_eq!(rt; story.at(10), [exerted(10, 4)].as_slice());
    assert_eq!(rt; story.at(12).len(), 3);
    assert_eq!(rt; story.next_after(9), Some(10));
    assert_eq!(rt; story.next_after(10), Some(12));
    assert_eq!(rt; story.next_after(12), None);
    assert_eq!(rt; story.next_after(Point::MAX), None);
    assert_eq!(rt; story.next_after(Point::MIN), Some(10));
    Ok(())
}

/// Notes so many exertions at a point.
fn note_many(story: &mut Story, point: Point, count: u32) -> Result<(), StoryFault> {
    for power in 0..count {
        story.note(exerted(point, power))?;
    }
    Ok(())
}

#[test]
fn holds_two_hundred_thousand_at_a_point(rt: HostRuntime) -> Result<(), Fail> {
    let mut story = Story::new(rt.alloc(), 0)?;
    note_many(&mut story, 7, 200_000)?;
    assert_eq!(rt; story.len(), 200_000);
    assert_eq!(rt; story.at(7).len(), 200_000);
    assert_eq!(rt; story.note(exerted(7, 200_000)), Err(StoryFault::TooMany));
    assert_eq!(rt; story.note(exerted(8, 0)), Err(StoryFault::TooMany));
    assert_eq!(rt; story.note(exerted(7, 199_999)), Ok(Known));
    assert_eq!(rt; story.note(exerted(-1, 0)), Err(TooEarly));
    assert_eq!(rt; story.len(), 200_000);
    assert_eq!(rt; story.next_after(7), None);
    Ok(())
}
