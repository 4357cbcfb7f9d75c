ghost use Rattle.std.specs.Prelude.{◌≡◌, ◌≢◌, ◌+◌, ◌*◌, IfSome, IfNone};
ghost use Rattle.gds_model.specs.declared.record_kind.RecordKind.{RecordKind as Kind};
ghost use Rattle.gds_model.specs.RecordKind.{code_of};

use gds_model::RecordKind;

/// The kind of record that has these two bytes, if the manual has one.
pub fn kind_of(record_type: u8, data_type: u8) -> Option<RecordKind>
    ensures found { IfSome result (λ kind. code_of kind ≡ 256 * record_type + data_type) }
    ensures none { IfNone result ((kind : Kind) → code_of kind ≢ 256 * record_type + data_type) }
{
    let code = u16::from(record_type) * 256 + u16::from(data_type);
    match code {
        0x0002 => Some(RecordKind::Header),
        0x0102 => Some(RecordKind::BgnLib),
        0x0206 => Some(RecordKind::LibName),
        0x0305 => Some(RecordKind::Units),
        0x0400 => Some(RecordKind::EndLib),
        0x0502 => Some(RecordKind::BgnStr),
        0x0606 => Some(RecordKind::StrName),
        0x0700 => Some(RecordKind::EndStr),
        0x0800 => Some(RecordKind::Boundary),
        0x0900 => Some(RecordKind::Path),
        0x0A00 => Some(RecordKind::Sref),
        0x0B00 => Some(RecordKind::Aref),
        0x0C00 => Some(RecordKind::Text),
        0x0D02 => Some(RecordKind::Layer),
        0x0E02 => Some(RecordKind::Datatype),
        0x0F03 => Some(RecordKind::Width),
        0x1003 => Some(RecordKind::Xy),
        0x1100 => Some(RecordKind::EndEl),
        0x1206 => Some(RecordKind::Sname),
        0x1302 => Some(RecordKind::ColRow),
        0x1500 => Some(RecordKind::Node),
        0x1602 => Some(RecordKind::TextType),
        0x1701 => Some(RecordKind::Presentation),
        0x1906 => Some(RecordKind::TextString),
        0x1A01 => Some(RecordKind::Strans),
        0x1B05 => Some(RecordKind::Mag),
        0x1C05 => Some(RecordKind::Angle),
        0x1F06 => Some(RecordKind::RefLibs),
        0x2006 => Some(RecordKind::Fonts),
        0x2102 => Some(RecordKind::PathType),
        0x2202 => Some(RecordKind::Generations),
        0x2306 => Some(RecordKind::AttrTable),
        0x2601 => Some(RecordKind::ElFlags),
        0x2A02 => Some(RecordKind::NodeType),
        0x2B02 => Some(RecordKind::PropAttr),
        0x2C06 => Some(RecordKind::PropValue),
        0x2D00 => Some(RecordKind::Box),
        0x2E02 => Some(RecordKind::BoxType),
        0x2F03 => Some(RecordKind::Plex),
        0x3003 => Some(RecordKind::BgnExtn),
        0x3103 => Some(RecordKind::EndExtn),
        0x3401 => Some(RecordKind::StrClass),
        0x3602 => Some(RecordKind::Format),
        0x3706 => Some(RecordKind::Mask),
        0x3800 => Some(RecordKind::EndMasks),
        0x3902 => Some(RecordKind::LibDirSize),
        0x3A06 => Some(RecordKind::SrfName),
        0x3B02 => Some(RecordKind::LibSecur),
        _ => None,
    }
}
