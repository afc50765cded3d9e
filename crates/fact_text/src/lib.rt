//! The text of facts: what a report says of each node of a composition.
#![tactic(auto)]

ghost use Rattle.std.specs.Prelude.{◌≡◌, ◌≤◌, length};
ghost use Rattle.std.specs.Option.{option_map};
ghost use Rattle.arrayvec.specs.ArrayString.{array_string_len};
ghost use Rattle.fact_text.specs.FactText.{count_line, fact_line, node_words, room_line, stats_line};

use layer_rules::{Fact, Stats};
use line_text::{Line, push_number};
use stats_collector::in_order;

// The beginning of a node's line: its number, and what it is.
fn node_words(node: u32, words: &str) -> Line
    requires { length words.now ≤ 20 }
    ensures bytes { result.bytes ≡ node_words node words.now }
    ensures len { array_string_len result ≤ 46 }
{
    let mut line = Line::new();
    line.push_str("node ");
    push_number(&mut line, u64::from(node));
    line.push_str(" ");
    line.push_str(words);
    line
}

// A layer with a chunk.
fn room_line(node: u32, word: &str, room: u64, longest: u64) -> Line
    requires { length word.now ≤ 20 }
    ensures { result.bytes ≡ room_line node word.now room longest }
{
    let mut line = node_words(node, word);
    line.push_str(" room ");
    push_number(&mut line, room);
    line.push_str(" longest ");
    push_number(&mut line, longest);
    line.push_str("\n");
    line
}

// How many there are, where there are any.
fn count_line(node: u32, words: &str, count: u64) -> Option<Line>
    requires { length words.now ≤ 20 }
    ensures { option_map (λ line. line.bytes) result ≡ count_line node words.now count }
{
    if count == 0 {
        return None;
    }
    let mut line = node_words(node, words);
    line.push_str(" ");
    push_number(&mut line, count);
    line.push_str("\n");
    Some(line)
}

// A statistics layer.
fn stats_line(node: u32, stats: Stats) -> Line
    ensures { result.bytes ≡ stats_line node stats }
{
    let mut line = node_words(node, "stats");
    for number in in_order(stats) {
        line.push_str(" ");
        push_number(&mut line, number);
    }
    line.push_str("\n");
    line
}

/// The line that tells the fact of a node, counted in preorder from the root as 0, with its newline: `node`, the number, what the
/// layer is, and its numbers. There is none of a layer with nothing to tell, and none of a count of 0.
pub fn fact_line(node: u32, fact: Fact) -> Option<Line>
    ensures { option_map (λ line. line.bytes) result ≡ fact_line node fact }
{
    match fact {
        Fact::Cells { count } => count_line(node, "mem cells", u64::from(count)),
        Fact::Region { room } => Some(room_line(node, "region", room, room)),
        Fact::Bitmap { room, longest } => Some(room_line(node, "bitmap", room, longest)),
        Fact::Kr { room, longest } => Some(room_line(node, "kr", room, longest)),
        Fact::Cached { count } => count_line(node, "freelist cached", count),
        Fact::Members { count } => count_line(node, "list open", u64::from(count)),
        Fact::Counters { stats } => Some(stats_line(node, stats)),
        Fact::Plain | Fact::Closed | Fact::Numbers { .. } => None,
    }
}
