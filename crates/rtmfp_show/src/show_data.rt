//! What `show` prints of a chunk of a flow: its name and its fields.
ghost use Rattle.std.specs.Prelude.{◌≡◌, ◌++◌, ◌-◌, suc, OnOk, decimal, map};
ghost use Rattle.std.specs.List.{flat_map};
ghost use Rattle.rtmfp_forms.specs.OptionReading.{option_parts};
ghost use Rattle.rtmfp_data_chunks.specs.Chunk.{AckBitmap, AckRanges, Exception, data_chunk, user_parts};
ghost use Rattle.rtmfp_text.specs.Words.{behind_commas, list_text};
ghost use Rattle.rtmfp_show.specs.DataText.{ack_text, count_up, data_text, marks_text, numbers_of, numbers_text, option_text, options_text, part_text, span_text, user_text};

use rtmfp_data_chunks::{AckedSpans, DataView, Part, UserData};
use rtmfp_forms::{OptionView, Options};
use rtmfp_text::Text;
use std::alloc::AllocError;

/// Adds the name and the fields of a chunk of a flow.
#[tactic(auto, unfolding(crate::specs::DataText::data_text))]
pub(crate) fn show_data_view(view: &DataView<'_>, text: &mut Text) -> Result<(), AllocError>
    ensures { OnOk result (text.new ≡ text.old ++ data_text (data_chunk view.now)) }
{
    match view {
        DataView::Data(user) => show_user(" data", user, text),
        DataView::Next(user) => show_user(" next", user, text),
        DataView::AckBitmap {
            flow,
            blocks,
            upto,
            bits,
        } => show_bitmap(*flow, *blocks, *upto, bits, text),
        DataView::AckRanges {
            flow,
            blocks,
            upto,
            pairs,
        } => show_ack_ranges(*flow, *blocks, *upto, pairs, text),
        DataView::Probe { flow } => text.push_number_field(" probe flow=", *flow),
        DataView::Exception { flow, code } => show_exception(*flow, *code, text),
    }
}

fn show_exception(flow: u64, code: u64, text: &mut Text) -> Result<(), AllocError>
    ensures { OnOk result (text.new ≡ text.old ++ data_text (Exception flow code)) }
{
    text.push_number_field(" exception flow=", flow)?;
    text.push_number_field(" code=", code)?;
    Ok(())
}

// ---- user data

fn show_user(name: &str, user: &UserData<'_>, text: &mut Text) -> Result<(), AllocError>
    ensures { OnOk result (text.new ≡ text.old ++ user_text name.now (user_parts user.now)) }
{
    text.push(name)?;
    show_marks(user.part, user.abandon, user.last, text)?;
    show_numbers(user.flow, user.seq, user.forward, text)?;
    text.push(" opts=")?;
    show_options(&user.options, text)?;
    text.push_field(" bytes=", user.bytes)?;
    Ok(())
}

fn show_marks(part: Part, abandon: bool, last: bool, text: &mut Text) -> Result<(), AllocError>
    ensures { OnOk result (text.new ≡ text.old ++ marks_text part abandon last) }
{
    text.push(" part=")?;
    text.push(part_name(part))?;
    text.push_bit_field(" abandon=", abandon)?;
    text.push_bit_field(" final=", last)?;
    Ok(())
}

fn part_name(part: Part) -> &'static str
    ensures { result.now ≡ part_text part }
{
    match part {
        Part::Whole => "whole",
        Part::Begin => "begin",
        Part::End => "end",
        Part::Middle => "middle",
    }
}

fn show_numbers(flow: u64, seq: u64, forward: u64, text: &mut Text) -> Result<(), AllocError>
    ensures { OnOk result (text.new ≡ text.old ++ numbers_text flow seq forward) }
{
    text.push_number_field(" flow=", flow)?;
    text.push_number_field(" seq=", seq)?;
    text.push_number_field(" forward=", forward)?;
    Ok(())
}

/// Adds options with commas between them, or `-` where there are none.
fn show_options(options: &Option<Options<'_>>, text: &mut Text) -> Result<(), AllocError>
    ensures { OnOk result (text.new ≡ text.old ++ options_text options.now) }
{
    let Some(options) = options else {
        return text.push("-");
    };
    let mut others = options.iter();
    let Some(first) = others.next() else {
        return text.push("-");
    };
    show_option(&first, text)?;
    show_more_options(others, text)
}

/// Adds options, each behind a comma.
fn show_more_options(options: Options<'_>, text: &mut Text) -> Result<(), AllocError>
    ensures { OnOk result (text.new ≡ text.old ++ behind_commas (map option_text options.entry)) }
{
    for option in options {
        text.push(",")?;
        show_option(&option, text)?;
    }
    Ok(())
}

fn show_option(option: &OptionView<'_>, text: &mut Text) -> Result<(), AllocError>
    ensures { OnOk result (text.new ≡ text.old ++ option_text (option_parts option.now)) }
{
    text.push_number(option.kind)?;
    text.push_field(":", option.value)?;
    Ok(())
}

// ---- acks

fn show_ack(
    name: &str,
    flow: u64,
    blocks: u64,
    upto: u64,
    text: &mut Text,
) -> Result<(), AllocError>
    ensures { OnOk result (text.new ≡ text.old ++ ack_text name.now flow blocks upto) }
{
    text.push_number_field(name, flow)?;
    text.push_number_field(" blocks=", blocks)?;
    text.push_number_field(" upto=", upto)?;
    text.push(" also=")?;
    Ok(())
}

fn show_ack_ranges(
    flow: u64,
    blocks: u64,
    upto: u64,
    pairs: &[u8],
    text: &mut Text,
) -> Result<(), AllocError>
    ensures { OnOk result (text.new ≡ text.old
        ++ data_text (AckRanges flow blocks upto pairs.now)) }
{
    show_ack(" ackranges flow=", flow, blocks, upto, text)?;
    show_spans(AckedSpans::of_pairs(upto, pairs), text)?;
    Ok(())
}

/// Adds the first and the last number of each span with commas between them, or `-` where there
/// are none.
fn show_spans(spans: AckedSpans<'_>, text: &mut Text) -> Result<(), AllocError>
    ensures { OnOk result (text.new ≡ text.old ++ list_text (map span_text spans.entry)) }
{
    let mut others = spans;
    let Some(first) = others.next() else {
        return text.push("-");
    };
    show_span(first, text)?;
    show_more_spans(others, text)
}

/// Adds spans, each behind a comma.
fn show_more_spans(spans: AckedSpans<'_>, text: &mut Text) -> Result<(), AllocError>
    ensures { OnOk result (text.new ≡ text.old
        ++ behind_commas (map span_text spans.entry)) }
{
    for span in spans {
        text.push(",")?;
        show_span(span, text)?;
    }
    Ok(())
}

fn show_span(span: (u64, u64), text: &mut Text) -> Result<(), AllocError>
    ensures { OnOk result (text.new ≡ text.old ++ span_text span) }
{
    text.push_number(span.0)?;
    text.push("-")?;
    text.push_number(span.1)?;
    Ok(())
}

fn show_bitmap(
    flow: u64,
    blocks: u64,
    upto: u64,
    bits: &[u8],
    text: &mut Text,
) -> Result<(), AllocError>
    ensures { OnOk result (text.new ≡ text.old ++ data_text (AckBitmap flow blocks upto bits.now)) }
{
    show_ack(" ackbits flow=", flow, blocks, upto, text)?;
    show_each_number(AckedSpans::of_bits(upto, bits), text)?;
    Ok(())
}

/// Adds each number of spans with commas between them, or `-` where there are none.
fn show_each_number(spans: AckedSpans<'_>, text: &mut Text) -> Result<(), AllocError>
    ensures { OnOk result (text.new ≡ text.old
        ++ list_text (map decimal (flat_map numbers_of spans.entry))) }
{
    let mut others = spans;
    let Some((first, last)) = others.next() else {
        return text.push("-");
    };
    text.push_number(first)?;
    show_more_numbers(first, last, text)?;
    show_numbers_of_more(others, text)?;
    Ok(())
}

/// Adds each number of spans behind a comma.
fn show_numbers_of_more(spans: AckedSpans<'_>, text: &mut Text) -> Result<(), AllocError>
    ensures { OnOk result (text.new ≡ text.old
        ++ behind_commas (map decimal (flat_map numbers_of spans.entry))) }
{
    for (first, last) in spans {
        text.push(",")?;
        text.push_number(first)?;
        show_more_numbers(first, last, text)?;
    }
    Ok(())
}

/// Adds the numbers above one, up to another, each behind a comma.
fn show_more_numbers(above: u64, last: u64, text: &mut Text) -> Result<(), AllocError>
    ensures { OnOk result (text.new ≡ text.old
        ++ behind_commas (map decimal (count_up (suc above) (last - above)))) }
{
    let mut shown = above;
    while shown < last {
        shown += 1;
        text.push(",")?;
        text.push_number(shown)?;
    }
    Ok(())
}
