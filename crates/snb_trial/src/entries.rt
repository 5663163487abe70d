//! The seven updates of an i, as lines.

ghost use Rattle.std.specs.Prelude.{◌≡◌, ◌≤◌, IfOk};
ghost use Rattle.snb_schema.specs.declared.limits.TheConstants.{MAX_TRIAL};
ghost use Rattle.snb_trial.specs.Trial.{comment, forum, friendship, like, trial_line, membership, person, post};

use snb_base::{Numbers, Pairs, Text, Texts};
use snb_schema::{Forum, Line, Op, Parent};
use std::alloc::{AllocError, Global};

/// Person i.
pub fn person_line(alloc: Global, i: u64, number: u32) -> Result<Line, AllocError>
    requires { i ≤ MAX_TRIAL }
    ensures { IfOk result (λ line. line ≡ trial_line (number, person i)) }
{
    let op = Op::AddPerson {
        person_id: i,
        first_name: Text::from_str(alloc, "F")?,
        last_name: Text::from_str(alloc, "L")?,
        gender: Text::from_str(alloc, "g")?,
        birthday: 0,
        creation_date: 1000 * i,
        location_ip: Text::from_str(alloc, "0.0.0.0")?,
        browser_used: Text::from_str(alloc, "b")?,
        city_id: 0,
        languages: Texts::new(alloc),
        emails: Texts::new(alloc),
        tag_ids: Numbers::new(alloc),
        study_at: Pairs::new(alloc),
        work_at: Pairs::new(alloc),
    };
    Ok(Line {
        t: 1000 * i,
        t_d: 0,
        op,
        number,
    })
}

/// The friendship of i and its half.
pub fn friendship_line(i: u64, number: u32) -> Line
    requires { i ≤ MAX_TRIAL }
    ensures { result ≡ trial_line (number, friendship i) }
{
    let t = 1000 * i + 500;
    Line {
        t,
        t_d: 1000 * i,
        op: Op::AddFriend {
            person1_id: i,
            person2_id: i / 2,
            date: t,
        },
        number,
    }
}

/// Forum i.
pub fn forum_line(alloc: Global, i: u64, number: u32) -> Result<Line, AllocError>
    requires { i ≤ MAX_TRIAL }
    ensures { IfOk result (λ line. line ≡ trial_line (number, forum i)) }
{
    let t = 1000 * i + 600;
    let forum = Forum::named(i, Text::from_str(alloc, "T")?, t);
    let op = forum.into_op(i, Numbers::new(alloc));
    Ok(Line {
        t,
        t_d: 1000 * i,
        op,
        number,
    })
}

/// The membership of the half in forum i.
pub fn membership_line(i: u64, number: u32) -> Line
    requires { i ≤ MAX_TRIAL }
    ensures { result ≡ trial_line (number, membership i) }
{
    let t = 1000 * i + 700;
    Line {
        t,
        t_d: 1000 * i,
        op: Op::AddMember {
            person_id: i / 2,
            forum_id: i,
            join_date: t,
        },
        number,
    }
}

/// Post 2i by i in forum i.
pub fn post_line(alloc: Global, i: u64, number: u32) -> Result<Line, AllocError>
    requires { i ≤ MAX_TRIAL }
    ensures { IfOk result (λ line. line ≡ trial_line (number, post i)) }
{
    let t = 1000 * i + 800;
    let op = Op::AddPost {
        post_id: 2 * i,
        image_file: Text::new(alloc),
        date: t,
        location_ip: Text::from_str(alloc, "0.0.0.0")?,
        browser_used: Text::from_str(alloc, "b")?,
        language: Text::from_str(alloc, "l")?,
        content: Text::from_str(alloc, "c")?,
        length: 1,
        author_id: i,
        forum_id: i,
        country_id: 1,
        tag_ids: Numbers::new(alloc),
    };
    Ok(Line {
        t,
        t_d: 1000 * i,
        op,
        number,
    })
}

/// Comment 2i + 1 by the half on post 2i.
pub fn comment_line(alloc: Global, i: u64, number: u32) -> Result<Line, AllocError>
    requires { i ≤ MAX_TRIAL }
    ensures { IfOk result (λ line. line ≡ trial_line (number, comment i)) }
{
    let t = 1000 * i + 900;
    let op = Op::AddComment {
        comment_id: 2 * i + 1,
        date: t,
        location_ip: Text::from_str(alloc, "0.0.0.0")?,
        browser_used: Text::from_str(alloc, "b")?,
        content: Text::from_str(alloc, "c")?,
        length: 1,
        author_id: i / 2,
        country_id: 1,
        parent: Parent::Post { id: 2 * i },
        tag_ids: Numbers::new(alloc),
    };
    Ok(Line {
        t,
        t_d: 1000 * i,
        op,
        number,
    })
}

/// The like of post 2i by the half.
pub fn like_line(i: u64, number: u32) -> Line
    requires { i ≤ MAX_TRIAL }
    ensures { result ≡ trial_line (number, like i) }
{
    let t = 1000 * i + 950;
    Line {
        t,
        t_d: 1000 * i,
        op: Op::LikePost {
            person_id: i / 2,
            post_id: 2 * i,
            date: t,
        },
        number,
    }
}
