//! PLDM types, completion codes and instance IDs.
use mctp_transport::Wire;
use pldm_message::{
    CompletionCode, GetPldmTypesAnswer, InstanceId, InstanceIds, PldmType, PldmTypes,
};
use std::test::Fail;

/// The first PLDM type of which it is otherwise that the answer has it.
fn first_other_type(types: &PldmTypes, rows: &[(u8, bool)]) -> Option<u8> {
    for (pldm_type, wanted) in rows {
        if *pldm_type > 63 || types.has(PldmType::new(*pldm_type)) != *wanted {
            return Some(*pldm_type);
        }
    }
    None
}

#[test]
fn an_answer_has_pldm_types(rt: HostRuntime) -> Result<(), Fail> {
    let bytes = [0x01, 0x00, 0x00, 0x04, 0x00, 0x05, 0, 0, 0, 0, 0, 0, 0];
    let types = GetPldmTypesAnswer::read(&bytes)?
        .outcome
        .ok()
        .ok_or("no types")?;
    let rows = [(0, true), (1, false), (2, true), (3, false), (63, false)];
    assert_eq!(rt; first_other_type(&types, &rows), None);
    Ok(())
}

const CODES: [(CompletionCode, u8); 10] = [
    (CompletionCode::ERROR, 0x01),
    (CompletionCode::INVALID_DATA, 0x02),
    (CompletionCode::INVALID_LENGTH, 0x03),
    (CompletionCode::NOT_READY, 0x04),
    (CompletionCode::UNSUPPORTED_COMMAND, 0x05),
    (CompletionCode::INVALID_PLDM_TYPE, 0x20),
    (CompletionCode::INVALID_TRANSFER_HANDLE, 0x80),
    (CompletionCode::INVALID_TRANSFER_OPERATION, 0x81),
    (CompletionCode::INVALID_RECORD_HANDLE, 0x82),
    (CompletionCode::INVALID_RECORD_CHANGE_NUMBER, 0x83),
];

/// The first of these values that a code hasn't.
fn first_other_code(rows: &[(CompletionCode, u8)]) -> Option<u8> {
    for (code, value) in rows {
        if code.value != *value {
            return Some(*value);
        }
    }
    None
}

#[test]
fn completion_codes_have_their_values(rt: HostRuntime) {
    assert_eq!(rt; first_other_code(&CODES), None);
}

/// Calls of instance IDs, and what they answer.
#[derive(Clone, Copy)]
enum Turn {
    /// The IDs from the first to the last are given out, one after the other.
    Takes(u8, u8),
    TakesNone,
    GivesBack(InstanceId, bool),
}

/// Whether the IDs from the first to the last are given out, one after the other.
fn takes(ids: &mut InstanceIds, first: u8, last: u8) -> bool {
    for wanted in first..=last {
        match ids.take() {
            Some(id) if id.value == wanted => {}
            _ => return false,
        }
    }
    true
}

/// Whether the IDs answer this turn's calls so.
fn answers(ids: &mut InstanceIds, turn: Turn) -> bool {
    match turn {
        Turn::Takes(first, last) => takes(ids, first, last),
        Turn::TakesNone => ids.take().is_none(),
        Turn::GivesBack(id, was_out) => ids.give_back(id) == was_out,
    }
}

/// The place of the first turn in which the IDs answer otherwise.
fn first_other_turn(ids: &mut InstanceIds, turns: &[Turn]) -> Option<usize> {
    for (place, turn) in turns.iter().enumerate() {
        if !answers(ids, *turn) {
            return Some(place);
        }
    }
    None
}

#[test]
fn each_id_is_given_once_and_then_again(rt: HostRuntime) {
    let turns = [
        Turn::Takes(0, 1),
        Turn::GivesBack(InstanceId::new(0), true),
        Turn::GivesBack(InstanceId::new(0), false),
        Turn::Takes(2, 31),
        Turn::Takes(0, 0),
        Turn::TakesNone,
        Turn::GivesBack(InstanceId::new(7), true),
        Turn::Takes(7, 7),
    ];
    assert_eq!(rt; first_other_turn(&mut InstanceIds::new(), &turns), None);
}
