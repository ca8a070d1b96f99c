ghost use Rattle.std.specs.Prelude.{◌≡◌, [], ◌∷◌, map, filter};
ghost use Rattle.json.specs.Token.{begin_object, end_object};
ghost use Rattle.serde_json.specs.Data.{array};
ghost use Rattle.ht_base.specs.Role.{contains_role, role_name};
ghost use Rattle.ht_base.specs.State.{contains_state, state_name};
ghost use Rattle.ht_api.specs.Contents.{comment_data, comments_data, content_data, part_rows, row_object, rows_of, scalar_data, tasks_data, texts};
ghost use Rattle.ht_api.specs.Writing.{Puts, object_tokens, rows_then, tokens_of};

use ht_base::{
    Ids, Memory, Moment, Name, Names, Parts, Role, Roles, Scalar, ShownComment, ShownComments,
    State, StateSet, TaskId,
};
use json::Writer;

/// The value of a member of a reply.
#[derive(Clone, Copy)]
pub(crate) enum Content<'a> {
    Name(Name),
    MaybeName(Option<Name>),
    Text(&'a str),
    Number(u64),
    MaybeTask(Option<TaskId>),
    MaybeMoment(Option<Moment>),
    State(State),
    Truth(bool),
    Names(&'a Names),
    Parts(&'a Parts),
    Comments(&'a ShownComments),
    Tasks(&'a Ids),
    Roles(Roles),
    States(StateSet),
}

/// Writes an object with these members.
pub(crate) fn put_short(members: &[(&str, Content<'_>)], writer: &mut Writer) -> Result<(), Memory>
    ensures { Puts result writer.old writer.new (object_tokens (rows_of members.now)) }
{
    put_object(members, &[], &[], writer)
}

/// Writes an object whose members are given in three parts.
pub(crate) fn put_object(
    first: &[(&str, Content<'_>)],
    middle: &[(&str, Content<'_>)],
    last: &[(&str, Content<'_>)],
    writer: &mut Writer,
) -> Result<(), Memory>
    ensures { Puts result writer.old writer.new (begin_object ∷ rows_then (rows_of first.now)
        (rows_then (rows_of middle.now) (rows_then (rows_of last.now) (end_object ∷ [])))) }
{
    open_object(writer)?;
    put_members(first, writer)?;
    put_members(middle, writer)?;
    put_members(last, writer)?;
    close_object(writer)
}

fn open_object(writer: &mut Writer) -> Result<(), Memory>
    ensures { Puts result writer.old writer.new (begin_object ∷ []) }
{
    writer.begin_object()?;
    Ok(())
}

fn close_object(writer: &mut Writer) -> Result<(), Memory>
    ensures { Puts result writer.old writer.new (end_object ∷ []) }
{
    writer.end_object()?;
    Ok(())
}

fn put_members(members: &[(&str, Content<'_>)], writer: &mut Writer) -> Result<(), Memory>
    ensures { Puts result writer.old writer.new (rows_then (rows_of members.now) []) }
{
    for (key, content) in members {
        writer.key(key)?;
        put_content(content, writer)?;
    }
    Ok(())
}

fn put_content(content: &Content<'_>, writer: &mut Writer) -> Result<(), Memory>
    ensures { Puts result writer.old writer.new (tokens_of (content_data content.now)) }
{
    match content {
        Content::Name(name) => writer.string(name.as_str())?,
        Content::MaybeName(Some(name)) => writer.string(name.as_str())?,
        Content::MaybeName(None) => writer.null()?,
        Content::Text(text) => writer.string(text)?,
        Content::Number(number) => writer.u64(*number)?,
        Content::MaybeTask(Some(task)) => writer.u64(u64::from(task.0))?,
        Content::MaybeTask(None) => writer.null()?,
        Content::MaybeMoment(Some(moment)) => writer.u64(moment.0)?,
        Content::MaybeMoment(None) => writer.null()?,
        Content::State(state) => writer.string(state.name())?,
        Content::Truth(truth) => writer.boolean(*truth)?,
        Content::Names(names) => return put_names(names.as_slice(), writer),
        Content::Parts(parts) => return put_parts(parts.as_slice(), writer),
        Content::Comments(comments) => return put_comments(comments.as_slice(), writer),
        Content::Tasks(tasks) => return put_tasks(tasks.as_slice(), writer),
        Content::Roles(roles) => return put_roles(&Role::ALL, roles, writer),
        Content::States(states) => return put_states(&State::ALL, states, writer),
    }
    Ok(())
}

fn put_names(names: &[Name], writer: &mut Writer) -> Result<(), Memory>
    ensures { Puts result writer.old writer.new (tokens_of (array (texts names.now))) }
{
    writer.begin_array()?;
    for name in names {
        writer.string(name.as_str())?;
    }
    writer.end_array()?;
    Ok(())
}

fn put_parts(parts: &[(Name, Scalar)], writer: &mut Writer) -> Result<(), Memory>
    ensures { Puts result writer.old writer.new (tokens_of (row_object (part_rows parts.now))) }
{
    open_object(writer)?;
    put_part_members(parts, writer)?;
    close_object(writer)
}

fn put_part_members(parts: &[(Name, Scalar)], writer: &mut Writer) -> Result<(), Memory>
    ensures { Puts result writer.old writer.new (rows_then (part_rows parts.now) []) }
{
    for (name, scalar) in parts {
        writer.key(name.as_str())?;
        put_scalar(scalar, writer)?;
    }
    Ok(())
}

fn put_scalar(scalar: &Scalar, writer: &mut Writer) -> Result<(), Memory>
    ensures { Puts result writer.old writer.new (tokens_of (scalar_data scalar.now)) }
{
    match scalar {
        Scalar::Text(text) => writer.string(text.as_str())?,
        Scalar::Int(number) => writer.i64(*number)?,
        Scalar::Truth(truth) => writer.boolean(*truth)?,
    }
    Ok(())
}

fn put_tasks(tasks: &[TaskId], writer: &mut Writer) -> Result<(), Memory>
    ensures { Puts result writer.old writer.new (tokens_of (tasks_data tasks.now)) }
{
    writer.begin_array()?;
    for task in tasks {
        writer.u64(u64::from(task.0))?;
    }
    writer.end_array()?;
    Ok(())
}

fn put_comments(comments: &[ShownComment], writer: &mut Writer) -> Result<(), Memory>
    ensures { Puts result writer.old writer.new (tokens_of (comments_data comments.now)) }
{
    writer.begin_array()?;
    for comment in comments {
        put_comment(comment, writer)?;
    }
    writer.end_array()?;
    Ok(())
}

fn put_comment(comment: &ShownComment, writer: &mut Writer) -> Result<(), Memory>
    ensures { Puts result writer.old writer.new (tokens_of (comment_data comment.now)) }
{
    writer.begin_object()?;
    writer.key("moment")?;
    writer.u64(comment.moment.0)?;
    writer.key("person")?;
    writer.string(comment.person.as_str())?;
    writer.key("text")?;
    writer.string(comment.text.as_str())?;
    writer.end_object()?;
    Ok(())
}

fn put_roles(all: &[Role], set: &Roles, writer: &mut Writer) -> Result<(), Memory>
    ensures { Puts result writer.old writer.new
        (tokens_of (array (texts (map role_name (filter (contains_role set.now) all.now))))) }
{
    writer.begin_array()?;
    for role in all {
        if set.contains(*role) {
            writer.string(role.name())?;
        }
    }
    writer.end_array()?;
    Ok(())
}

fn put_states(all: &[State], set: &StateSet, writer: &mut Writer) -> Result<(), Memory>
    ensures { Puts result writer.old writer.new
        (tokens_of (array (texts (map state_name (filter (contains_state set.now) all.now))))) }
{
    writer.begin_array()?;
    for state in all {
        if set.contains(*state) {
            writer.string(state.name())?;
        }
    }
    writer.end_array()?;
    Ok(())
}
