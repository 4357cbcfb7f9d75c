//! Which records begin an element, and which bodies a record may have.
ghost use Rattle.std.specs.Prelude.{◌≡◌};
ghost use Rattle.gds_model.specs.RecordKind.{code_of};
ghost use Rattle.gds_model.specs.Body.{body_of_kind, fits, points, name, element_code, element_kinds, is_one_of};

use gds_model::RecordKind;

/// Whether the record begins an element.
#[tactic(auto, using(crate::proofs::Firsts::not_one_of))]
pub fn is_element(kind: RecordKind) -> bool
    ensures { is_one_of element_kinds (code_of kind) ≡ result }
{
    match kind {
        RecordKind::Boundary
        | RecordKind::Path
        | RecordKind::Sref
        | RecordKind::Aref
        | RecordKind::Text
        | RecordKind::Node
        | RecordKind::Box => true,
        _ => false,
    }
}

/// Whether the body is one that the record may have, in the element that it stands in.
pub fn is_body_fit(kind: RecordKind, element: Option<RecordKind>, body: &[u8]) -> bool
    ensures { result ≡ fits (body_of_kind kind) (element_code element) body.now }
{
    match kind {
        RecordKind::Header
        | RecordKind::Layer
        | RecordKind::Datatype
        | RecordKind::TextType
        | RecordKind::Presentation
        | RecordKind::Strans
        | RecordKind::PathType
        | RecordKind::NodeType
        | RecordKind::BoxType => body.len() == 2,
        RecordKind::BgnLib | RecordKind::BgnStr => body.len() == 24,
        RecordKind::LibName
        | RecordKind::TextString
        | RecordKind::RefLibs
        | RecordKind::Fonts
        | RecordKind::Generations
        | RecordKind::AttrTable
        | RecordKind::ElFlags
        | RecordKind::PropAttr
        | RecordKind::PropValue
        | RecordKind::Plex
        | RecordKind::StrClass
        | RecordKind::Format
        | RecordKind::Mask
        | RecordKind::LibDirSize
        | RecordKind::SrfName
        | RecordKind::LibSecur => true,
        RecordKind::Units => body.len() == 16,
        RecordKind::EndLib
        | RecordKind::EndStr
        | RecordKind::Boundary
        | RecordKind::Path
        | RecordKind::Sref
        | RecordKind::Aref
        | RecordKind::Text
        | RecordKind::EndEl
        | RecordKind::Node
        | RecordKind::Box
        | RecordKind::EndMasks => body.len() == 0,
        RecordKind::StrName | RecordKind::Sname => is_name_fit(body),
        RecordKind::Width | RecordKind::ColRow | RecordKind::BgnExtn | RecordKind::EndExtn =>
            body.len() == 4,
        RecordKind::Xy => is_points_fit(element, body),
        RecordKind::Mag | RecordKind::Angle => body.len() == 8,
    }
}

fn is_points_fit(element: Option<RecordKind>, body: &[u8]) -> bool
    ensures { result ≡ fits points (element_code element) body.now }
{
    match element {
        Some(RecordKind::Sref) => body.len() == 8,
        Some(RecordKind::Aref) => body.len() == 24,
        _ => body.len() >= 8 && body.len() % 8 == 0,
    }
}

fn is_name_fit(body: &[u8]) -> bool
    ensures { result ≡ fits name 0 body.now }
{
    body.iter().any(|byte| *byte != 0)
}
