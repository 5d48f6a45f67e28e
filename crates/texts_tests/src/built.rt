use std::alloc::{AllocError, Global};

// Four digits.
fn push_number(text: &mut Vec<u8>, number: usize) -> Result<(), AllocError> {
    for place in [1000, 100, 10, 1] {
        text.push(b'0' + (number / place % 10) as u8)?;
    }
    Ok(())
}

// A text of so many instances, the first of which has so many actions, each of another name.
pub(crate) fn many(heap: Global, instances: usize, events: usize) -> Result<Vec<u8>, AllocError> {
    let mut text = Vec::new(heap);
    text.extend_from_slice(b"msc c;")?;
    for i in 0..instances {
        text.extend_from_slice(b"instance ")?;
        push_number(&mut text, i)?;
        text.push(b';')?;
        if i == 0 {
            push_actions(&mut text, events)?;
        }
        text.extend_from_slice(b"endinstance;")?;
    }
    text.extend_from_slice(b"endmsc;")?;
    Ok(text)
}

fn push_actions(text: &mut Vec<u8>, events: usize) -> Result<(), AllocError> {
    for k in 0..events {
        text.extend_from_slice(b"action ")?;
        push_number(text, k)?;
        text.push(b';')?;
    }
    Ok(())
}
