// Lines that say what is on a channel: how many messages, and the lowest stamp among them.
ghost use Rattle.writing.specs.Stored.{Put};
ghost use Rattle.answers.specs.Lines.{channel_line, channel_lines, count_line, stamp_word};

use writing::Lines;

// An empty channel has no stamp.
#[tactic(auto, using(crate::proofs::ChannelLines::stamp_of_some), unfolding(crate::specs::Lines::stamp_word, writing::specs::Text::bytes))]
fn stamp_word(count: u16, stamp: i32, lines: &mut Lines)
    ensures { Put (stamp_word count stamp) lines.old lines.new }
{
    if count == 0 {
        lines.text(b"-");
    } else {
        lines.signed(stamp);
    }
}

// `channel 0 1 5`
fn channel_line(i: usize, count: u16, stamp: i32, lines: &mut Lines)
    ensures { Put (channel_line i count stamp) lines.old lines.new }
{
    lines.text(b"channel");
    lines.spaced(i);
    lines.spaced(count as usize);
    lines.text(b" ");
    stamp_word(count, stamp, lines);
    lines.text(b"\n");
}

// `count 1 5`
pub(crate) fn count_line(count: usize, stamp: i32, lines: &mut Lines)
    ensures { Put (count_line count stamp) lines.old lines.new }
{
    lines.text(b"count");
    lines.spaced(count);
    lines.text(b" ");
    lines.signed(stamp);
    lines.text(b"\n");
}

// A line for each place that both rows have.
pub(crate) fn channel_lines(counts: &[u16], stamps: &[i32], lines: &mut Lines)
    ensures { Put (channel_lines 0 counts.now stamps.now) lines.old lines.new }
{
    for (i, (count, stamp)) in counts.iter().zip(stamps).enumerate() {
        channel_line(i, *count, *stamp, lines);
    }
}
