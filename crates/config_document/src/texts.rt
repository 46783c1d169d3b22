//! What texts say that stand for one value: NAMEs, names of the network, talkers, and texts for people.
ghost use Rattle.std.specs.Prelude.{◌≡◌};
ghost use Rattle.std.specs.List.{list_all};
ghost use Rattle.config_document.specs.Texts.{is_printable};

use crate::written::Written;
use arrayvec::ArrayVec;
use hex::FromHex;
use n2k_id::Name;
use sentence_text::{Group, Sfi};

/// The talker of a sentence, two capital letters (IEC 61162-1).
#[derive(Clone, Copy)]
pub struct Talker(pub [u8; 2]);

/// A text of product information, at most 32 characters of ASCII from space to tilde.
#[derive(Drop)]
pub struct ProductText(pub ArrayVec<u8, 32>);

impl Written for Name {
    ghost use Rattle.config_document.specs.Texts.{name_in};
    ghost use Rattle.std.specs.Prelude.{⊤};

    ghost said_by = { name_in };

    ghost is_valid = { λ _. ⊤ };

    fn of(text: &[u8]) -> Option<Name> {
        match <[u8; 8]>::from_hex(text) {
            Ok(bytes) => Some(Name(u64::from_be_bytes(bytes))),
            Err(_) => None,
        }
    }
}

impl Written for Sfi {
    ghost use Rattle.config_document.specs.Texts.{sfi_in};
    ghost use Rattle.std.specs.Prelude.{⊤};

    ghost said_by = { sfi_in };

    ghost is_valid = { λ _. ⊤ };

    #[tactic(auto, using(crate::proofs::Names::sfi_told))]
    fn of(text: &[u8]) -> Option<Sfi> {
        Sfi::of(text)
    }
}

impl Written for Group {
    ghost use Rattle.config_document.specs.Texts.{group_in};
    ghost use Rattle.std.specs.Prelude.{⊤};

    ghost said_by = { group_in };

    ghost is_valid = { λ _. ⊤ };

    #[tactic(auto, using(crate::proofs::Names::group_told))]
    fn of(text: &[u8]) -> Option<Group> {
        Group::of(text)
    }
}

impl Written for Talker {
    ghost use Rattle.config_document.specs.Texts.{IsTalker, talker_in};

    ghost said_by = { talker_in };

    ghost is_valid = { λ t. IsTalker t.0 };

    fn of(text: &[u8]) -> Option<Talker> {
        match text {
            [first, second] if first.is_ascii_uppercase() && second.is_ascii_uppercase() => {
                Some(Talker([*first, *second]))
            }
            _ => None,
        }
    }
}

impl Written for ProductText {
    ghost use Rattle.config_document.specs.Texts.{IsProductText, product_text_in};

    ghost said_by = { product_text_in };

    ghost is_valid = { λ t. IsProductText t.0.items };

    fn of(text: &[u8]) -> Option<ProductText> {
        let mut kept = ArrayVec::new();
        if !are_printable(text) || kept.try_extend_from_slice(text).is_err() {
            return None;
        }
        Some(ProductText(kept))
    }
}

fn are_printable(text: &[u8]) -> bool
    ensures { result ≡ list_all is_printable text.now }
{
    text.iter().all(|byte| matches!(*byte, b' '..=b'~'))
}
