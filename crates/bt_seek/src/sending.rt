//! A search with its post: what it sends, and the mail that it takes.
ghost use Rattle.std.specs.Prelude.{◌≡◌, ◌<◌, IfOk, OnOk, true, vec_len};
ghost use Rattle.bt_seek.specs.Courses.{may_send};
ghost use Rattle.bt_seek.specs.Names.{Names, names_of, site_of};
ghost use Rattle.bt_seek.specs.Questions.{IsAsking, IsPageAsked, datagram_by, is_known as is_known_by, site_question, wanted_by};
ghost use Rattle.bt_seek.specs.Runs.{IsTold};
ghost use Rattle.bt_seek.specs.Tables.{course_of};

use crate::named::{Named, Page};
use crate::post::Post;
use crate::question::{Given, Kind, Question};
use crate::search::{Ask, Due, Ids, Search, announce_of, kind_of};
use crate::table::{Table, has};
use bt_dht::get_peers;
use bt_tracker::{Event, announce_question, connect_question, http_question};
use std::alloc::{AllocError, Global};
use std::mem;
use std::net::SocketAddr;

/// After how long a question is sent once more, in milliseconds.
const AGAIN: u64 = 1000;

/// How many questions to nodes may be open at the same time.
const FLIGHT: usize = 8;

/// How much mail is taken in a turn.
const MAIL: usize = 256;

/// Returns the datagram that asks.
fn datagram_of(alloc: Global, ids: &Ids, ask: Ask, id: [u8; 4]) -> Result<Vec<u8>, AllocError>
    ensures { IfOk result (λ datagram. datagram.items ≡ datagram_by ids.now ask id) }
{
    match ask {
        Ask::Connect => connect_question(alloc, id),
        Ask::Announce(connection) => {
            let announce = announce_of(ids, Event::Started, 50);
            announce_question(alloc, connection, id, ids.key, &announce)
        }
        Ask::Stop(connection) => {
            let announce = announce_of(ids, Event::Stopped, 0);
            announce_question(alloc, connection, id, ids.key, &announce)
        }
        Ask::Nodes => get_peers(alloc, id, ids.node_id, ids.info_hash, None),
    }
}

/// Returns whether a question may go to an address: that was named, or an answer told it that counted.
fn is_known(named: &Named, table: &Table, to: SocketAddr, ask: Ask) -> bool
    ensures { result ≡ is_known_by (names_of named.now) (course_of table.now) to ask }
{
    match ask {
        Ask::Connect => has(&named.trackers, to),
        Ask::Announce(connection) | Ask::Stop(connection) => table.is_given(to, connection),
        Ask::Nodes => has(&named.nodes, to) || has(&table.nodes, to),
    }
}

/// Sends a question, and notes that it was sent.
fn put<P: Post>(
    named: &Named,
    table: &mut Table,
    post: &mut P,
    to: SocketAddr,
    question: Question,
    datagram: &[u8],
) -> Result<(), AllocError>
    requires asks { IsAsking (names_of named.now) (course_of table.old) to question.kind question.id datagram.now }
    requires few { may_send to question.kind (course_of table.old) ≡ true }
    ensures { OnOk result (IsTold (P.log post.old) (names_of named.now) (course_of table.old)
        → IsTold (P.log post.new) (names_of named.now) (course_of table.new)) }
{
    post.send(to, question, datagram);
    table.sent(to, question)
}

/// Notes a question that was sent for the first time: it is sent once more unless its answer comes.
fn note_sent(search: &mut Search, due: Due, id: [u8; 4]) -> Result<(), AllocError>
    ensures { course_of search.new.table ≡ course_of search.old.table }
{
    match due.ask {
        Ask::Connect => search.summary.trackers = search.summary.trackers.saturating_add(1),
        Ask::Nodes => search.summary.nodes = search.summary.nodes.saturating_add(1),
        Ask::Announce(connection) => search.announced.push(Given {
            to: due.to,
            connection,
        })?,
        Ask::Stop(_) => return Ok(()),
    }
    search.due.push(Due {
        to: due.to,
        ask: due.ask,
        at: search.table.time.saturating_add(AGAIN),
        again: Some(id),
    })?;
    Ok(())
}

/// Sends a question, unless it may not be sent or isn't open any more.
fn send<P: Post>(
    named: &Named,
    search: &mut Search,
    post: &mut P,
    due: Due,
) -> Result<(), AllocError>
    ensures { OnOk result (IsTold (P.log post.old) (names_of named.now) (course_of search.old.table)
        → IsTold (P.log post.new) (names_of named.now) (course_of search.new.table)) }
{
    let kind = kind_of(due.ask);
    if search.is_done(&due) || !search.table.may_send(due.to, kind) {
        return Ok(());
    }
    if !is_known(named, &search.table, due.to, due.ask) {
        return Ok(());
    }
    let id = post.draw();
    let datagram = datagram_of(search.alloc, &named.ids, due.ask, id)?;
    put(
        named,
        &mut search.table,
        post,
        due.to,
        Question { id, kind },
        &datagram,
    )?;
    if due.again.is_none() {
        note_sent(search, due, id)?;
    }
    Ok(())
}

/// Sends a question if its time has come, or keeps it.
fn send_or_keep<P: Post>(
    named: &Named,
    search: &mut Search,
    post: &mut P,
    due: Due,
) -> Result<(), AllocError>
    ensures { OnOk result (IsTold (P.log post.old) (names_of named.now) (course_of search.old.table)
        → IsTold (P.log post.new) (names_of named.now) (course_of search.new.table)) }
{
    if due.at <= search.table.time {
        return send(named, search, post, due);
    }
    search.due.push(due)?;
    Ok(())
}

/// Sends the questions whose time has come.
///
/// # Errors
/// `AllocError` when out of memory.
pub fn send_due<P: Post>(named: &Named, search: &mut Search, post: &mut P) -> Result<(), AllocError>
    ensures { OnOk result (IsTold (P.log post.old) (names_of named.now) (course_of search.old.table)
        → IsTold (P.log post.new) (names_of named.now) (course_of search.new.table)) }
{
    let waiting = mem::replace(&mut search.due, Vec::new(search.alloc));
    for due in &waiting {
        send_or_keep(named, search, post, *due)?;
    }
    Ok(())
}

/// Asks the next node; returns whether there was one.
fn ask_node<P: Post>(named: &Named, search: &mut Search, post: &mut P) -> Result<bool, AllocError>
    ensures { OnOk result (IsTold (P.log post.old) (names_of named.now) (course_of search.old.table)
        → IsTold (P.log post.new) (names_of named.now) (course_of search.new.table)) }
{
    if search.table.open_nodes() >= FLIGHT {
        return Ok(false);
    }
    let Some(to) = search.nodes.take_next(!search.table.peers.is_empty()) else {
        return Ok(false);
    };
    let at = search.table.time;
    let due = Due {
        to,
        ask: Ask::Nodes,
        at,
        again: None,
    };
    send(named, search, post, due)?;
    Ok(true)
}

/// Asks the next nodes.
///
/// # Errors
/// `AllocError` when out of memory.
pub fn ask_nodes<P: Post>(
    named: &Named,
    search: &mut Search,
    post: &mut P,
) -> Result<(), AllocError>
    ensures { OnOk result (IsTold (P.log post.old) (names_of named.now) (course_of search.old.table)
        → IsTold (P.log post.new) (names_of named.now) (course_of search.new.table)) }
{
    for _ in 0..FLIGHT {
        if !ask_node(named, search, post)? {
            break;
        }
    }
    Ok(())
}

/// Returns how many peers are wanted from a tracker.
fn wanted(event: Event) -> u32
    ensures { result ≡ wanted_by event }
{
    match event {
        Event::Stopped => 0,
        _ => 50,
    }
}

/// Returns the question to a page, with an event.
fn question_to(alloc: Global, ids: &Ids, page: &Page, event: Event) -> Result<Vec<u8>, AllocError>
    ensures { IfOk result (λ question. question.items ≡ site_question ids.now (site_of page.now) event) }
{
    let announce = announce_of(ids, event, wanted(event));
    http_question(
        alloc,
        page.host.as_str(),
        page.port,
        &page.target,
        &announce,
    )
}

/// Returns the question to the page of a number, with an event.
#[tactic(auto, using(crate::proofs::More::page_there))]
fn page_question(
    alloc: Global,
    named: &Named,
    page: usize,
    event: Event,
) -> Result<Vec<u8>, AllocError>
    requires { page < vec_len named.now.pages }
    ensures { IfOk result (λ question. IsPageAsked (names_of named.now) event page question.items) }
{
    question_to(alloc, &named.ids, &named.pages[page], event)
}

/// Asks the next page; returns whether there was one.
fn ask_page<P: Post>(named: &Named, search: &mut Search, post: &mut P) -> Result<bool, AllocError>
    ensures { OnOk result (IsTold (P.log post.old) (names_of named.now) (course_of search.old.table)
        → IsTold (P.log post.new) (names_of named.now) (course_of search.new.table)) }
{
    let page = search.table.begun;
    if page >= named.pages.len() {
        return Ok(false);
    }
    let question = page_question(search.alloc, named, page, Event::Started)?;
    post.ask(page, &question);
    search.table.ask_page()?;
    search.summary.trackers = search.summary.trackers.saturating_add(1);
    Ok(true)
}

/// Asks the pages that weren't asked.
///
/// # Errors
/// `AllocError` when out of memory.
pub fn ask_pages<P: Post>(
    named: &Named,
    search: &mut Search,
    post: &mut P,
) -> Result<(), AllocError>
    ensures { OnOk result (IsTold (P.log post.old) (names_of named.now) (course_of search.old.table)
        → IsTold (P.log post.new) (names_of named.now) (course_of search.new.table)) }
{
    for _ in 0..named.pages.len() {
        if !ask_page(named, search, post)? {
            break;
        }
    }
    Ok(())
}

/// Tells a page that was asked that this peer has stopped.
fn stop_page<P: Post>(
    named: &Named,
    search: &Search,
    post: &mut P,
    page: usize,
) -> Result<(), AllocError>
    requires { page < search.now.table.begun }
    ensures { OnOk result (IsTold (P.log post.old) (names_of named.now) (course_of search.now.table)
        → IsTold (P.log post.new) (names_of named.now) (course_of search.now.table)) }
{
    if page >= named.pages.len() {
        return Ok(());
    }
    let question = page_question(search.alloc, named, page, Event::Stopped)?;
    post.stop(page, &question);
    Ok(())
}

/// Tells each page that was asked that this peer has stopped.
///
/// # Errors
/// `AllocError` when out of memory.
pub fn stop_pages<P: Post>(
    named: &Named,
    search: &mut Search,
    post: &mut P,
) -> Result<(), AllocError>
    ensures { OnOk result (IsTold (P.log post.old) (names_of named.now) (course_of search.old.table)
        → IsTold (P.log post.new) (names_of named.now) (course_of search.new.table)) }
{
    let begun = search.table.begun;
    for page in search.stopped..begun {
        stop_page(named, search, post, page)?;
    }
    search.stopped = begun;
    Ok(())
}

/// Tells each tracker over UDP that heard of this peer that it has stopped.
///
/// # Errors
/// `AllocError` when out of memory.
pub fn send_stops<P: Post>(
    named: &Named,
    search: &mut Search,
    post: &mut P,
) -> Result<(), AllocError>
    ensures { OnOk result (IsTold (P.log post.old) (names_of named.now) (course_of search.old.table)
        → IsTold (P.log post.new) (names_of named.now) (course_of search.new.table)) }
{
    let announced = mem::replace(&mut search.announced, Vec::new(search.alloc));
    for tracker in &announced {
        let ask = Ask::Stop(tracker.connection);
        let at = search.table.time;
        let due = Due {
            to: tracker.to,
            ask,
            at,
            again: None,
        };
        send(named, search, post, due)?;
    }
    Ok(())
}

/// Sets when the search began, unless that is set.
fn begin(begun: &mut Option<u64>, now: u64) {
    if begun.is_none() {
        *begun = Some(now);
    }
}

/// Looks at the clock.
pub fn look<P: Post>(search: &mut Search, post: &mut P)
    ensures { (names : Names) → IsTold (P.log post.old) names (course_of search.old.table)
        → IsTold (P.log post.new) names (course_of search.new.table) }
{
    let now = post.time();
    begin(&mut search.begun, now);
    search.table.tick(now);
}

/// Takes the next mail; returns whether there was one.
fn take_next<P: Post>(
    search: &mut Search,
    post: &mut P,
    buffer: &mut [u8],
) -> Result<bool, AllocError>
    ensures { OnOk result ((names : Names) → IsTold (P.log post.old) names (course_of search.old.table)
        → IsTold (P.log post.new) names (course_of search.new.table)) }
{
    let Some(came) = post.receive(buffer) else {
        return Ok(false);
    };
    search.take(came, buffer)?;
    Ok(true)
}

/// Takes the mail that is there.
///
/// # Errors
/// `AllocError` when out of memory.
pub fn take_mail<P: Post>(
    search: &mut Search,
    post: &mut P,
    buffer: &mut [u8],
) -> Result<(), AllocError>
    ensures { OnOk result ((names : Names) → IsTold (P.log post.old) names (course_of search.old.table)
        → IsTold (P.log post.new) names (course_of search.new.table)) }
{
    for _ in 0..MAIL {
        if !take_next(search, post, buffer)? {
            break;
        }
    }
    Ok(())
}

/// Asks whoever is to be asked now.
///
/// # Errors
/// `AllocError` when out of memory.
pub fn ask_all<P: Post>(named: &Named, search: &mut Search, post: &mut P) -> Result<(), AllocError>
    ensures { OnOk result (IsTold (P.log post.old) (names_of named.now) (course_of search.old.table)
        → IsTold (P.log post.new) (names_of named.now) (course_of search.new.table)) }
{
    ask_pages(named, search, post)?;
    send_due(named, search, post)?;
    ask_nodes(named, search, post)
}
