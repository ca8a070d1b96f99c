use ht_api::{ApiRefusal, Routes, event_of, text_of};
use ht_base::{
    Answer, Bytes, Command, Event, Moment, Name, NoticePage, NoticeRow, NoticeRows, Page, PageRow,
    PageRows, Query, Refusal, Reply, Retry, Role, State, TaskId, Unknown, Which,
};
use ht_wire::Request;
use http::Method;
use std::alloc::Global;
use std::process::Abort;
use std::test::Fail;

const BY: Retry = Retry {
    device: 1,
    number: 5,
};

fn name(text: &str) -> Result<Name, Fail> {
    Ok(Name::of(text.as_bytes()).ok_or("a name")?)
}

// A request of anna's.
fn request(alloc: Global, method: &str, target: &str, body: &str) -> Result<Request, Fail> {
    Ok(Request {
        method: Method::from_bytes(alloc, method.as_bytes())?,
        target: Bytes::of(alloc, target.as_bytes())?,
        person: Name::of(b"anna"),
        last: false,
        body: Bytes::of(alloc, body.as_bytes())?,
    })
}

// Whether it is a command of anna's on task 12, which delegates it to ben and has a number.
fn is_delegated(event: &Event) -> bool {
    let Event::Ask {
        at: Moment(7000),
        caller,
        retry: Some(retry),
        task: TaskId(12),
        command: Command::Delegate { person },
    } = event
    else {
        return false;
    };
    let is_to_ben = Some(*person) == Name::of(b"ben");
    is_to_ben && *retry == BY && Some(*caller) == Name::of(b"anna")
}

#[test]
fn a_request_is_an_event(rt: HostRuntime) -> Result<(), Fail> {
    let routes = Routes::new(rt.alloc())?;
    let body = "{\"person\":\"ben\",\"device\":1,\"number\":5}";
    let delegate = request(rt.alloc(), "POST", "/tasks/12/delegate", body)?;
    assert!(rt; is_delegated(&event_of(rt.alloc(), &routes, &delegate, Moment(7000))?));
    let stranger = request(rt.alloc(), "GET", "/nowhere", "")?;
    let refused = event_of(rt.alloc(), &routes, &stranger, Moment(7000)).err();
    assert_eq!(rt; refused, Some(ApiRefusal::Route));
    Ok(())
}

// Whether it is anna's question for 100 of her tasks that are ready, behind the first 20.
fn is_list(event: &Event) -> bool {
    let Event::Read {
        caller,
        query: Query::Tasks {
            role: Some(Role::ActualOwner),
            which: Which::Only(State::Ready),
            from: 20,
            count: 100,
        },
    } = event
    else {
        return false;
    };
    Some(*caller) == Name::of(b"anna")
}

// Whether it is anna's question for the first of her notifications.
fn is_notices(event: &Event) -> bool {
    let Event::Read {
        caller,
        query: Query::Notices { from: 0, count: 1 },
    } = event
    else {
        return false;
    };
    Some(*caller) == Name::of(b"anna")
}

#[test]
fn a_list_is_a_question(rt: HostRuntime) -> Result<(), Fail> {
    let routes = Routes::new(rt.alloc())?;
    let list = request(rt.alloc(), "GET", "/lists/actualOwner/Ready/20/100", "")?;
    assert!(rt; is_list(&event_of(rt.alloc(), &routes, &list, Moment(7000))?));
    let notices = request(rt.alloc(), "GET", "/notifications/0/1", "")?;
    assert!(rt; is_notices(&event_of(rt.alloc(), &routes, &notices, Moment(7000))?));
    Ok(())
}

// The request is refused so.
fn is_refused(
    rt: &impl Abort,
    alloc: Global,
    method: &str,
    target: &str,
    why: ApiRefusal,
) -> Result<(), Fail> {
    let routes = Routes::new(alloc)?;
    let asked = request(alloc, method, target, "")?;
    assert_eq!(rt;
        event_of(alloc, &routes, &asked, Moment(7000)).err(),
        Some(why)
    );
    Ok(())
}

#[test]
fn other_paths_are_no_lists(rt: HostRuntime) -> Result<(), Fail> {
    is_refused(
        &rt,
        rt.alloc(),
        "GET",
        "/lists/operator/live/0/10",
        ApiRefusal::Route,
    )?;
    is_refused(
        &rt,
        rt.alloc(),
        "GET",
        "/lists/any/live/0/101",
        ApiRefusal::Route,
    )?;
    is_refused(
        &rt,
        rt.alloc(),
        "GET",
        "/notifications/00/10",
        ApiRefusal::Route,
    )?;
    is_refused(
        &rt,
        rt.alloc(),
        "GET",
        "/notifications/0/10/",
        ApiRefusal::Route,
    )?;
    is_refused(
        &rt,
        rt.alloc(),
        "POST",
        "/notifications/0/10",
        ApiRefusal::Method,
    )
}

// The answer has this status and this text, whatever the buffer held.
fn is_told(
    rt: &impl Abort,
    alloc: Global,
    answer: Answer,
    status: u16,
    text: &str,
) -> Result<(), Fail> {
    let reply = Reply { taken: 0, answer };
    let mut into = Bytes::of(alloc, b"the last one")?;
    assert_eq!(rt; text_of(alloc, &reply, &mut into)?, status);
    assert_eq!(rt; into.as_slice(), text.as_bytes());
    Ok(())
}

#[test]
fn an_answer_is_a_text(rt: HostRuntime) -> Result<(), Fail> {
    let done = Answer::Done {
        task: TaskId(4_294_967_295),
        state: State::SuspendedInProgress,
        owner: Some(name("anna")?),
    };
    let text = "{\"owner\":\"anna\",\"state\":\"SuspendedInProgress\",\"task\":4294967295}";
    is_told(&rt, rt.alloc(), done, 200, text)?;
    let refused = Answer::Refused(Refusal::Unknown(Unknown::Person(name("eve")?)));
    let text = "{\"fault\":\"Unknown\",\"person\":\"eve\"}";
    is_told(&rt, rt.alloc(), refused, 422, text)?;
    is_told(&rt, rt.alloc(), Answer::Turned, 200, "{}")
}

#[test]
fn a_page_is_a_text(rt: HostRuntime) -> Result<(), Fail> {
    let mut rows = PageRows::new(rt.alloc());
    rows.push(PageRow {
        created: Moment(1000),
        model: name("unit")?,
        owner: None,
        priority: 5,
        state: State::Ready,
        task: TaskId(2),
    })?;
    let text = "{\"rows\":[{\"created\":1000,\"model\":\"unit\",\"owner\":null,\"priority\":5,\
                \"state\":\"Ready\",\"task\":2}],\"total\":4294967295}";
    let total = 4_294_967_295;
    is_told(
        &rt,
        rt.alloc(),
        Answer::Page(Page { rows, total }),
        200,
        text,
    )
}

#[test]
fn notices_are_a_text(rt: HostRuntime) -> Result<(), Fail> {
    let mut rows = NoticeRows::new(rt.alloc());
    rows.push(NoticeRow {
        deadline: name("late")?,
        escalation: name("tell")?,
        moment: Moment(6000),
        number: 3,
        task: TaskId(1),
    })?;
    let text = "{\"rows\":[{\"deadline\":\"late\",\"escalation\":\"tell\",\"moment\":6000,\
                \"number\":3,\"task\":1}],\"total\":1}";
    let page = NoticePage { rows, total: 1 };
    is_told(&rt, rt.alloc(), Answer::Notices(page), 200, text)
}
