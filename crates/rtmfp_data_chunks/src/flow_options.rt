//! What the options of a user data chunk say of its flow (RFC 7016 section 2.3.11.1).

ghost use Rattle.std.specs.Prelude.{◌≡◌, ◌++◌, ◌<◌, OnOk, IfOk};
ghost use Rattle.std.specs.List.{flat_map};
ghost use Rattle.std.specs.Option.{option_map};
ghost use Rattle.rtmfp_forms.specs.Options.{PieceSpells, PiecesSpell, OptionsSpell};
ghost use Rattle.rtmfp_forms.specs.Options.{option_bytes};
ghost use Rattle.rtmfp_data_chunks.specs.FlowOptions.{associations, flow_options, metadata_in};
ghost use Rattle.rtmfp_data_chunks.specs.FlowOptions.{Names, flow_named, is_below, all_known};

use rtmfp_forms::Options;
use rtmfp_vlu::{read_vlu, write_vlu};
use std::alloc::{AllocError, Global};

/// The kind of the option that has the metadata.
const METADATA: u8 = 0;

/// The kind of the option that names the flow which is answered.
const ASSOCIATION: u8 = 10;

/// The metadata of a flow, where options have them: the value of the first one of kind 0.
pub fn metadata_in<'a>(options: &Options<'a>) -> Option<&'a [u8]>
    ensures { option_map (λ v. v.now) result ≡ metadata_in options.now }
{
    for option in options.iter() {
        if option.kind == u64::from(METADATA) {
            return Some(option.value);
        }
    }
    None
}

/// The flow that an association with this value names. None where the value isn't exactly one
/// number: it then names a flow that isn't there (own).
pub fn flow_named(value: &[u8]) -> Option<u64>
    ensures exact { result ≡ flow_named value.now }
    ensures names { Names value.now result }
{
    match read_vlu(value) {
        Ok((flow, used)) => {
            if used == value.len() {
                Some(flow)
            } else {
                None
            }
        }
        Err(_) => None,
    }
}

/// Whether each association among options names one of so many flows, which are numbered from 0 on.
pub fn all_known(options: &Options<'_>, flows: u64) -> bool
    ensures { result ≡ all_known flows options.now }
{
    for option in options.iter() {
        if option.kind == u64::from(ASSOCIATION) && !is_below(flow_named(option.value), flows) {
            return false;
        }
    }
    true
}

/// Whether this is one of so many flows.
fn is_below(flow: Option<u64>, flows: u64) -> bool
    ensures { result ≡ is_below flows flow }
{
    match flow {
        Some(flow) => flow < flows,
        None => false,
    }
}

/// The options of a flow as bytes: its metadata, and the flow that it answers where there is one.
pub fn spell_flow_options(
    alloc: Global,
    metadata: &[u8],
    answers: Option<u64>,
) -> Result<Vec<u8>, AllocError>
    ensures { IfOk result (λ bytes. OptionsSpell (flow_options metadata.now answers) bytes.items) }
{
    let mut bytes = Vec::new(alloc);
    put_option(&mut bytes, METADATA, metadata)?;
    put_association(&mut bytes, answers)?;
    bytes.push(0)?;
    Ok(bytes)
}

/// Adds the flow that is answered, where there is one.
fn put_association(bytes: &mut Vec<u8>, answers: Option<u64>) -> Result<(), AllocError>
    ensures put { OnOk result (bytes.new.items ≡ bytes.old.items
        ++ flat_map option_bytes (associations answers)) }
    ensures spells { OnOk result (PiecesSpell (associations answers)
        (flat_map option_bytes (associations answers))) }
{
    let Some(flow) = answers else {
        return Ok(());
    };
    let mut spelling = [0; 10];
    let len = write_vlu(flow, &mut spelling);
    put_option(bytes, ASSOCIATION, &spelling[..len])?;
    Ok(())
}

/// Adds an option.
fn put_option(bytes: &mut Vec<u8>, kind: u8, value: &[u8]) -> Result<(), AllocError>
    requires { kind < 128 }
    ensures put { OnOk result (bytes.new.items ≡ bytes.old.items
        ++ option_bytes (record { kind = kind; value = value.now })) }
    ensures spells { OnOk result (PieceSpells (record { kind = kind; value = value.now })
        (option_bytes (record { kind = kind; value = value.now }))) }
{
    let mut spelling = [0; 10];
    let len = write_vlu(value.len() as u64 + 1, &mut spelling);
    bytes.extend_from_slice(&spelling[..len])?;
    bytes.push(kind)?;
    bytes.extend_from_slice(value)?;
    Ok(())
}
