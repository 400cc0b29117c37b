ghost use Rattle.std.specs.Prelude.{◌≡◌, ◌≤◌, length, IfOk};
ghost use Rattle.std.specs.List.{filter, prefix_len};
ghost use Rattle.ndc_model_cells.specs.Cells.{is_learned_in, is_message_learned};
ghost use Rattle.ndc_domain.specs.Records.{record_of};
ghost use Rattle.ndc_model.specs.Queues.{is_addressed, names_cluster, needs_nothing};

use ndc_cluster::Cell;
use ndc_domain::{ClusterNo, DomainTable};
use ndc_event::{Batch, Name, OutOfMemory};
use ndc_model_cells::Message;
use std::alloc::Global;

/// Whether the record of a domain names a cluster.
pub fn is_named(table: &DomainTable, domain: &Name, reader: ClusterNo) -> bool
    ensures { result ≡ names_cluster reader (record_of table.now domain.now) }
{
    match table.find(domain) {
        Some(record) => record.members.has(reader),
        None => false,
    }
}

/// Whether a message is addressed to a reader: the source's record of its domain names the reader.
pub fn is_addressed(table: &DomainTable, reader: ClusterNo, sent: &Message) -> bool
    ensures { result ≡ is_addressed reader table.now sent.now }
{
    is_named(table, &sent.batch.domain, reader)
}

/// Takes the messages out that are not addressed to a reader. Takes no memory.
pub(crate) fn keep_addressed(messages: &mut Vec<Message>, table: &DomainTable, reader: ClusterNo)
    ensures { messages.new.items ≡ filter (is_addressed reader table.now) messages.old.items }
{
    messages.retain(|sent| is_addressed(table, reader, sent));
}

/// Copies of the messages that are addressed to a reader, in order.
pub(crate) fn addressed(
    alloc: Global,
    table: &DomainTable,
    reader: ClusterNo,
    entries: &[Message],
) -> Result<Vec<Message>, OutOfMemory>
    ensures { IfOk result (λ list.
        list.items ≡ filter (is_addressed reader table.now) entries.now) }
{
    if entries.is_empty() {
        return Ok(Vec::new(alloc));
    }
    copies_addressed(alloc, table, reader, entries)
}

/// The same, of any messages.
fn copies_addressed(
    alloc: Global,
    table: &DomainTable,
    reader: ClusterNo,
    entries: &[Message],
) -> Result<Vec<Message>, OutOfMemory>
    ensures { IfOk result (λ list.
        list.items ≡ filter (is_addressed reader table.now) entries.now) }
{
    let mut list = Vec::new(alloc);
    for entry in entries {
        if is_addressed(table, reader, entry) {
            list.push(entry.try_copy()?)?;
        }
    }
    Ok(list)
}

/// Whether a cell has learned a batch.
fn is_learned<C: Cell>(cell: &C, batch: &Batch) -> bool
    ensures { result ≡ is_learned_in (C.cell cell.now) batch.now }
{
    cell.has_learned(&batch.domain, &batch.workflow, batch.key)
}

/// Whether a cell has learned the batch of a message and the one that it carries.
fn is_message_learned<C: Cell>(cell: &C, sent: &Message) -> bool
    ensures { result ≡ is_message_learned (C.cell cell.now) sent.now }
{
    if !is_learned(cell, &sent.batch) {
        return false;
    }
    match sent.second.as_ref() {
        Some(second) => is_learned(cell, second),
        None => true,
    }
}

/// Whether nothing is to be done for a message: the reader's cell has learned it, or it is not addressed to the reader.
fn needs_nothing<C: Cell>(table: &DomainTable, reader: ClusterNo, cell: &C, sent: &Message) -> bool
    ensures { result ≡ needs_nothing reader table.now (C.cell cell.now) sent.now }
{
    is_message_learned(cell, sent) || !is_addressed(table, reader, sent)
}

/// How many of the first entries there are for which nothing is to be done.
pub(crate) fn settled_front<C: Cell>(
    table: &DomainTable,
    reader: ClusterNo,
    cell: &C,
    entries: &[Message],
) -> usize
    ensures front { result ≡ prefix_len
        (needs_nothing reader table.now (C.cell cell.now)) entries.now }
    ensures most { result ≤ length entries.now }
{
    let mut count = 0;
    for entry in entries {
        if !needs_nothing(table, reader, cell, entry) {
            return count;
        }
        count += 1;
    }
    count
}
