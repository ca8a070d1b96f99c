ghost use Rattle.std.specs.Prelude.{◌≡◌};
ghost use Rattle.serde_json.specs.Data.{array};
ghost use Rattle.ht_api.specs.Contents.{list_data, notice_items, notice_row_rows, page_items, page_row_rows, row_object};
ghost use Rattle.ht_api.specs.Writing.{Puts, list_begun, list_ended, tokens_of};

use crate::contents::{Content, put_short};
use ht_base::{Memory, NoticePage, NoticeRow, Page, PageRow};
use json::Writer;

/// Writes a part of a list of tasks.
pub(crate) fn put_page(page: &Page, writer: &mut Writer) -> Result<(), Memory>
    ensures { Puts result writer.old writer.new
        (tokens_of (list_data (page_items page.now.rows) page.now.total)) }
{
    open_list(writer)?;
    put_page_rows(page.rows.as_slice(), writer)?;
    close_list(page.total, writer)
}

/// Writes a part of a list of notifications.
pub(crate) fn put_notices(page: &NoticePage, writer: &mut Writer) -> Result<(), Memory>
    ensures { Puts result writer.old writer.new
        (tokens_of (list_data (notice_items page.now.rows) page.now.total)) }
{
    open_list(writer)?;
    put_notice_rows(page.rows.as_slice(), writer)?;
    close_list(page.total, writer)
}

// Writes what stands before the rows of a list.
fn open_list(writer: &mut Writer) -> Result<(), Memory>
    ensures { Puts result writer.old writer.new list_begun }
{
    writer.begin_object()?;
    writer.key("rows")?;
    Ok(())
}

// Writes what stands behind the rows of a list.
fn close_list(total: u32, writer: &mut Writer) -> Result<(), Memory>
    ensures { Puts result writer.old writer.new (list_ended total) }
{
    writer.key("total")?;
    writer.u64(u64::from(total))?;
    writer.end_object()?;
    Ok(())
}

fn put_page_rows(rows: &[PageRow], writer: &mut Writer) -> Result<(), Memory>
    ensures { Puts result writer.old writer.new (tokens_of (array (page_items rows.now))) }
{
    writer.begin_array()?;
    for row in rows {
        put_page_row(row, writer)?;
    }
    writer.end_array()?;
    Ok(())
}

fn put_page_row(row: &PageRow, writer: &mut Writer) -> Result<(), Memory>
    ensures { Puts result writer.old writer.new (tokens_of (row_object (page_row_rows row.now))) }
{
    put_short(
        &[
            ("created", Content::Number(row.created.0)),
            ("model", Content::Name(row.model)),
            ("owner", Content::MaybeName(row.owner)),
            ("priority", Content::Number(u64::from(row.priority))),
            ("state", Content::State(row.state)),
            ("task", Content::Number(u64::from(row.task.0))),
        ],
        writer,
    )
}

fn put_notice_rows(rows: &[NoticeRow], writer: &mut Writer) -> Result<(), Memory>
    ensures { Puts result writer.old writer.new (tokens_of (array (notice_items rows.now))) }
{
    writer.begin_array()?;
    for row in rows {
        put_notice_row(row, writer)?;
    }
    writer.end_array()?;
    Ok(())
}

fn put_notice_row(row: &NoticeRow, writer: &mut Writer) -> Result<(), Memory>
    ensures { Puts result writer.old writer.new (tokens_of (row_object (notice_row_rows row.now))) }
{
    put_short(
        &[
            ("deadline", Content::Name(row.deadline)),
            ("escalation", Content::Name(row.escalation)),
            ("moment", Content::Number(row.moment.0)),
            ("number", Content::Number(u64::from(row.number))),
            ("task", Content::Number(u64::from(row.task.0))),
        ],
        writer,
    )
}
