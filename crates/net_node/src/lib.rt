// A node of the network and its event, and the table of nodes in two lent slices. Contracts: specs/Table.antt.
#![tactic(auto)]

ghost use Rattle.std.specs.Prelude.{◌≡◌, ◌+◌, ◌*◌, ◌≤◌, ◌<◌, length};
ghost use Rattle.std.proofs.Props.{props};
ghost use Rattle.net_node.specs.Lent.{table_at_entry};
ghost use Rattle.net_node.specs.Left.{filled, places_of, kind_at, floats_kept, numbers_kept};
ghost use Rattle.net_node.specs.Table.{float_width, number_width, kind_of, kind_number, same_kind, fake_kind, is_fake};
ghost use Rattle.net_node.specs.Table.{same_event};
ghost use Rattle.net_node.specs.Table.{node_at, put_floats, put_numbers, Table, set_time, set_arc, set_next, set_prev};
ghost use Rattle.net_node.specs.Table.{no_link_event, blank, Room, Indexed};

// How many floats and how many numbers a node has in the table's two slices.
pub const FLOAT_WIDTH: usize = 4;

pub const NUMBER_WIDTH: usize = 6;

// Type of an estimated time node: the train arrives at the entry point of a link, clears it, or the node only links
// alternatives.
#[derive(Clone, Copy, Debug, PartialEq, Eq)]
pub enum EstType {
    Arrive,
    Clear,
    Fake,
}

// A kind's number in a table.
impl From<EstType> for u32 {
    ghost from_gives = { λ k n. n ≡ kind_number k };

    fn from(k: EstType) -> u32 {
        k as u32
    }
}

// The kind of a number. No `TryFrom`: each load of a node would be a `Result`, and the test of a table reads the number
// itself (`kind_at`). Another number than 0, 1 and 2 reads as a Fake.
impl From<u32> for EstType {
    ghost from_gives = { λ n k. k ≡ kind_of n };

    fn from(n: u32) -> EstType {
        match n {
            0 => EstType::Arrive,
            1 => EstType::Clear,
            _ => EstType::Fake,
        }
    }
}

impl EstType {
    // Whether a kind is Fake.
    pub fn is_fake(self) -> bool
        ensures { result ≡ fake_kind self }
    {
        self == EstType::Fake
    }
}

// A link and a type.
#[derive(Clone, Copy, Debug, PartialEq, Eq)]
pub struct LinkEvent {
    pub link_idx: u32,
    pub est_type: EstType,
}

// An estimated time node. An index 0 is none, in the source and in the tables that C and Rust lend: an Option would be
// made of it at each load.
#[derive(Clone, Copy, Debug)]
pub struct EstTime {
    pub time_sched: f64,
    pub time_to_next: f64,
    pub dist_to_next: f64,
    pub speed: f64,
    pub idx_next: u32,
    pub idx_next_alt: u32,
    pub idx_prev: u32,
    pub idx_prev_alt: u32,
    pub link_event: LinkEvent,
}

// An event of a run: when, where and how fast it happens.
#[derive(Clone, Copy, Debug)]
pub struct TimedEvent {
    pub time: f64,
    pub offset: f64,
    pub speed: f64,
    pub link_event: LinkEvent,
}

impl LinkEvent {
    // The event of a Fake.
    pub const NO_LINK: LinkEvent = LinkEvent {
        link_idx: 0,
        est_type: EstType::Fake,
    };
}

impl EstTime {
    // A node with nothing in it.
    pub const BLANK: EstTime = EstTime {
        time_sched: 0.0,
        time_to_next: 0.0,
        dist_to_next: 0.0,
        speed: 0.0,
        idx_next: 0,
        idx_next_alt: 0,
        idx_prev: 0,
        idx_prev_alt: 0,
        link_event: LinkEvent::NO_LINK,
    };

    // Whether a node is a Fake: a name for its kind's, as contracts above cite the rule.
    pub fn is_fake(&self) -> bool
        ensures { result ≡ is_fake self.now }
    {
        self.link_event.est_type.is_fake()
    }
}

// The event of a Fake. This contract, and the next one's, say what the constants are: callers take the constants.
#[tactic(auto, unfolding(crate::specs::Table::no_link_event))]
pub fn no_link_event() -> LinkEvent
    ensures { result ≡ no_link_event }
{
    LinkEvent::NO_LINK
}

// A node with nothing in it.
#[tactic(auto, unfolding(crate::specs::Table::blank, crate::specs::Table::no_link_event))]
pub fn blank_node() -> EstTime
    ensures { result ≡ blank }
{
    EstTime::BLANK
}

// The node of index i.
#[tactic(auto, unfolding(crate::specs::Table::node_at))]
pub fn load(floats: &[f64], numbers: &[u32], i: usize) -> EstTime
    requires float_width_in_bounds { i * float_width + float_width ≤ length floats.now }
    requires number_width_in_bounds { i * number_width + number_width ≤ length numbers.now }
    ensures { result ≡ node_at floats.now numbers.now i }
{
    let f = i * FLOAT_WIDTH;
    let u = i * NUMBER_WIDTH;
    EstTime {
        time_sched: floats[f],
        time_to_next: floats[f + 1],
        dist_to_next: floats[f + 2],
        speed: floats[f + 3],
        idx_next: numbers[u],
        idx_next_alt: numbers[u + 1],
        idx_prev: numbers[u + 2],
        idx_prev_alt: numbers[u + 3],
        link_event: LinkEvent {
            link_idx: numbers[u + 4],
            est_type: numbers[u + 5].into(),
        },
    }
}

// The nodes of a network that is only read: the first `count` of a table.
#[derive(Clone, Copy)]
pub struct Nodes<'a> {
    pub floats: &'a [f64],
    pub numbers: &'a [u32],
    pub count: usize,
    ghost room: { Room floats.now numbers.now count } by { Prim.hlevel props },
    ghost indexed: { Indexed (node_at floats.now numbers.now) count } by { Prim.hlevel props },
}

impl<'a> Nodes<'a> {
    ghost use Rattle.net_node.specs.Held.{nodes_held};

    // The node of index i.
    pub fn load(&self, i: u32) -> EstTime
        requires { i < self.now.count }
        ensures { result ≡ nodes_held self.now i }
    {
        load(self.floats, self.numbers, i as usize)
    }
}

// Writes a node at index i.
#[tactic(auto, unfolding(crate::specs::Table::put_floats, crate::specs::Table::put_numbers))]
pub fn store(floats: &mut [f64], numbers: &mut [u32], i: usize, node: EstTime)
    requires float_width_in_bounds { i * float_width + float_width ≤ length floats.old }
    requires number_width_in_bounds { i * number_width + number_width ≤ length numbers.old }
    ensures floats { floats.new ≡ put_floats floats.old i node }
    ensures numbers { numbers.new ≡ put_numbers numbers.old i node }
{
    let f = i * FLOAT_WIDTH;
    floats[f] = node.time_sched;
    floats[f + 1] = node.time_to_next;
    floats[f + 2] = node.dist_to_next;
    floats[f + 3] = node.speed;
    let u = i * NUMBER_WIDTH;
    numbers[u] = node.idx_next;
    numbers[u + 1] = node.idx_next_alt;
    numbers[u + 2] = node.idx_prev;
    numbers[u + 3] = node.idx_prev_alt;
    numbers[u + 4] = node.link_event.link_idx;
    numbers[u + 5] = node.link_event.est_type.into();
}

// Sets a node's time. Both slices are lent, here and below, though one is written: so a contract speaks of the table.
#[tactic(auto, unfolding(crate::specs::Table::set_time))]
pub fn set_time(floats: &mut [f64], numbers: &mut [u32], i: usize, time: f64)
    requires float_width_in_bounds { i * float_width + float_width ≤ length floats.old }
    requires number_width_in_bounds { i * number_width + number_width ≤ length numbers.old }
    ensures floats { floats.new ≡ (set_time (table_at_entry floats numbers) i time).floats }
    ensures numbers { numbers.new ≡ (set_time (table_at_entry floats numbers) i time).numbers }
{
    floats[i * FLOAT_WIDTH] = time;
}

// Sets a node's time and distance to next.
#[tactic(auto, unfolding(crate::specs::Table::set_arc))]
pub fn set_arc(floats: &mut [f64], numbers: &mut [u32], i: usize, time: f64, distance: f64)
    requires float_width_in_bounds { i * float_width + float_width ≤ length floats.old }
    requires number_width_in_bounds { i * number_width + number_width ≤ length numbers.old }
    ensures floats { floats.new ≡ (set_arc (table_at_entry floats numbers) i time distance).floats }
    ensures numbers { numbers.new ≡ (set_arc (table_at_entry floats numbers) i time distance).numbers }
{
    let f = i * FLOAT_WIDTH;
    floats[f + 1] = time;
    floats[f + 2] = distance;
}

// Sets a node's next. One line for each field that is set alone: a column as a parameter would tell callers the layout.
#[tactic(auto, unfolding(crate::specs::Table::set_next))]
pub fn set_next(floats: &mut [f64], numbers: &mut [u32], i: usize, next: u32)
    requires float_width_in_bounds { i * float_width + float_width ≤ length floats.old }
    requires number_width_in_bounds { i * number_width + number_width ≤ length numbers.old }
    ensures floats { floats.new ≡ (set_next (table_at_entry floats numbers) i next).floats }
    ensures numbers { numbers.new ≡ (set_next (table_at_entry floats numbers) i next).numbers }
{
    numbers[i * NUMBER_WIDTH] = next;
}

// Sets a node's previous.
#[tactic(auto, unfolding(crate::specs::Table::set_prev))]
pub fn set_prev(floats: &mut [f64], numbers: &mut [u32], i: usize, prev: u32)
    requires float_width_in_bounds { i * float_width + float_width ≤ length floats.old }
    requires number_width_in_bounds { i * number_width + number_width ≤ length numbers.old }
    ensures floats { floats.new ≡ (set_prev (table_at_entry floats numbers) i prev).floats }
    ensures numbers { numbers.new ≡ (set_prev (table_at_entry floats numbers) i prev).numbers }
{
    numbers[i * NUMBER_WIDTH + 2] = prev;
}

// How many nodes both slices of a table fill.
pub fn nodes_filled(floats: usize, numbers: usize) -> usize
    ensures { result ≡ filled floats numbers }
{
    (floats / FLOAT_WIDTH).min(numbers / NUMBER_WIDTH)
}

// How many nodes both slices of a table have places for.
#[tactic(auto, unfolding(crate::specs::Left::places_of))]
pub fn places(floats: usize, numbers: usize) -> usize
    ensures { result ≡ places_of floats numbers }
{
    nodes_filled(floats, numbers).min(65535)
}

// The number of a node's kind, whichever it is.
#[tactic(auto, unfolding(crate::specs::Left::kind_at))]
pub fn kind_at(numbers: &[u32], i: usize) -> u32
    requires { i * number_width + number_width ≤ length numbers.now }
    ensures { result ≡ kind_at numbers.now i }
{
    numbers[i * NUMBER_WIDTH + 5]
}

// Makes a table zero from node n on.
pub fn clear_behind(floats: &mut [f64], numbers: &mut [u32], n: usize)
    requires { n ≤ 65535 }
    ensures floats { floats.new ≡ floats_kept n floats.old (length floats.old) }
    ensures numbers { numbers.new ≡ numbers_kept n numbers.old
        (length numbers.old) }
{
    space::clear_from(floats, n * FLOAT_WIDTH);
    space::clear_from(numbers, n * NUMBER_WIDTH);
}
