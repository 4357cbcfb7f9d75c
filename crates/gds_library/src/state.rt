//! The state machine that follows the grammar.
ghost use Rattle.std.specs.Prelude.{◌≡◌, ◌==◌, IfSome, IsTrue};
ghost use Rattle.gds_records.specs.Records.{ENDLIB};
ghost use Rattle.gds_model.specs.RecordKind.{code_of};
ghost use Rattle.gds_library.specs.Derivative.{after, is_possible, can_be_empty};
ghost use Rattle.gds_library.specs.State.{rest_of, rest_after};

use gds_model::RecordKind;

/// Where a reader stands in the grammar of a stream file: named by the record that was read last, or by what comes next.
#[derive(Clone, Copy, Debug, PartialEq, Eq)]
pub enum State {
    /// Nothing has been read.
    Start,
    /// HEADER has been read.
    Header,
    /// BGNLIB has been read, and LIBNAME hasn't.
    BeforeName,
    /// LIBNAME has been read, and UNITS hasn't.
    BeforeUnits,
    /// UNITS or a whole structure has been read: a structure or ENDLIB comes.
    Structures,
    /// A structure has begun, without its name.
    BgnStr,
    /// A structure has its name: its class, an element or ENDSTR comes.
    StrName,
    /// A structure has its class or a whole element: an element or ENDSTR comes.
    Elements,
    /// A BOUNDARY has begun.
    Boundary,
    /// In a BOUNDARY, ELFLAGS has been read last.
    BoundaryElFlags,
    /// In a BOUNDARY, PLEX has been read last.
    BoundaryPlex,
    /// In a BOUNDARY, LAYER has been read last.
    BoundaryLayer,
    /// In a BOUNDARY, DATATYPE has been read last.
    BoundaryDatatype,
    /// A PATH has begun.
    Path,
    /// In a PATH, ELFLAGS has been read last.
    PathElFlags,
    /// In a PATH, PLEX has been read last.
    PathPlex,
    /// In a PATH, LAYER has been read last.
    PathLayer,
    /// In a PATH, DATATYPE has been read last.
    PathDatatype,
    /// In a PATH, PATHTYPE has been read last.
    PathPathType,
    /// In a PATH, WIDTH has been read last.
    PathWidth,
    /// In a PATH, BGNEXTN has been read last.
    PathBgnExtn,
    /// In a PATH, ENDEXTN has been read last.
    PathEndExtn,
    /// An SREF has begun.
    Sref,
    /// In an SREF, ELFLAGS has been read last.
    SrefElFlags,
    /// In an SREF, PLEX has been read last.
    SrefPlex,
    /// In an SREF, SNAME has been read last.
    SrefSname,
    /// In an SREF, STRANS has been read last.
    SrefStrans,
    /// In an SREF, MAG has been read last.
    SrefMag,
    /// In an SREF, ANGLE has been read last.
    SrefAngle,
    /// An AREF has begun.
    Aref,
    /// In an AREF, ELFLAGS has been read last.
    ArefElFlags,
    /// In an AREF, PLEX has been read last.
    ArefPlex,
    /// In an AREF, SNAME has been read last.
    ArefSname,
    /// In an AREF, STRANS has been read last.
    ArefStrans,
    /// In an AREF, MAG has been read last.
    ArefMag,
    /// In an AREF, ANGLE has been read last.
    ArefAngle,
    /// In an AREF, COLROW has been read last.
    ArefColRow,
    /// A TEXT has begun.
    Text,
    /// In a TEXT, ELFLAGS has been read last.
    TextElFlags,
    /// In a TEXT, PLEX has been read last.
    TextPlex,
    /// In a TEXT, LAYER has been read last.
    TextLayer,
    /// In a TEXT, TEXTTYPE has been read last.
    TextTextType,
    /// In a TEXT, PRESENTATION has been read last.
    TextPresentation,
    /// In a TEXT, PATHTYPE has been read last.
    TextPathType,
    /// In a TEXT, WIDTH has been read last.
    TextWidth,
    /// In a TEXT, STRANS has been read last.
    TextStrans,
    /// In a TEXT, MAG has been read last.
    TextMag,
    /// In a TEXT, ANGLE has been read last.
    TextAngle,
    /// In a TEXT, XY has been read last.
    TextXy,
    /// A NODE has begun.
    Node,
    /// In a NODE, ELFLAGS has been read last.
    NodeElFlags,
    /// In a NODE, PLEX has been read last.
    NodePlex,
    /// In a NODE, LAYER has been read last.
    NodeLayer,
    /// In a NODE, NODETYPE has been read last.
    NodeNodeType,
    /// A BOX has begun.
    Box,
    /// In a BOX, ELFLAGS has been read last.
    BoxElFlags,
    /// In a BOX, PLEX has been read last.
    BoxPlex,
    /// In a BOX, LAYER has been read last.
    BoxLayer,
    /// In a BOX, BOXTYPE has been read last.
    BoxBoxType,
    /// An element is whole but for properties and ENDEL.
    Properties,
    /// A property has its attribute, without its value.
    PropAttr,
    /// ENDLIB has been read.
    End,
}

impl State {
    /// The state after a record of this kind, where the grammar has one here.
    #[tactic(auto, using(crate::proofs::Firsts::none_after))]
    pub fn step(self, kind: RecordKind) -> Option<State>
        ensures rest { after (code_of kind) (rest_of self) ≡ rest_after result }
        ensures possible { IfSome result (λ next. IsTrue (is_possible (rest_of next))) }
        ensures end { IfSome result (λ next. can_be_empty (rest_of next) ≡ (code_of kind == ENDLIB)) }
    {
        match self {
            State::Start => match kind {
                RecordKind::Header => Some(State::Header),
                _ => None,
            },
            State::Header => match kind {
                RecordKind::BgnLib => Some(State::BeforeName),
                _ => None,
            },
            State::BeforeName => match kind {
                RecordKind::LibDirSize
                | RecordKind::SrfName
                | RecordKind::LibSecur
                | RecordKind::RefLibs
                | RecordKind::Fonts
                | RecordKind::AttrTable
                | RecordKind::Generations
                | RecordKind::Format
                | RecordKind::Mask
                | RecordKind::EndMasks => Some(State::BeforeName),
                RecordKind::LibName => Some(State::BeforeUnits),
                _ => None,
            },
            State::BeforeUnits => match kind {
                RecordKind::LibDirSize
                | RecordKind::SrfName
                | RecordKind::LibSecur
                | RecordKind::RefLibs
                | RecordKind::Fonts
                | RecordKind::AttrTable
                | RecordKind::Generations
                | RecordKind::Format
                | RecordKind::Mask
                | RecordKind::EndMasks => Some(State::BeforeUnits),
                RecordKind::Units => Some(State::Structures),
                _ => None,
            },
            State::Structures => match kind {
                RecordKind::BgnStr => Some(State::BgnStr),
                RecordKind::EndLib => Some(State::End),
                _ => None,
            },
            State::BgnStr => match kind {
                RecordKind::StrName => Some(State::StrName),
                _ => None,
            },
            State::StrName => match kind {
                RecordKind::StrClass => Some(State::Elements),
                RecordKind::Boundary => Some(State::Boundary),
                RecordKind::Path => Some(State::Path),
                RecordKind::Sref => Some(State::Sref),
                RecordKind::Aref => Some(State::Aref),
                RecordKind::Text => Some(State::Text),
                RecordKind::Node => Some(State::Node),
                RecordKind::Box => Some(State::Box),
                RecordKind::EndStr => Some(State::Structures),
                _ => None,
            },
            State::Elements => match kind {
                RecordKind::Boundary => Some(State::Boundary),
                RecordKind::Path => Some(State::Path),
                RecordKind::Sref => Some(State::Sref),
                RecordKind::Aref => Some(State::Aref),
                RecordKind::Text => Some(State::Text),
                RecordKind::Node => Some(State::Node),
                RecordKind::Box => Some(State::Box),
                RecordKind::EndStr => Some(State::Structures),
                _ => None,
            },
            State::Boundary => match kind {
                RecordKind::ElFlags => Some(State::BoundaryElFlags),
                RecordKind::Plex => Some(State::BoundaryPlex),
                RecordKind::Layer => Some(State::BoundaryLayer),
                _ => None,
            },
            State::BoundaryElFlags => match kind {
                RecordKind::Plex => Some(State::BoundaryPlex),
                RecordKind::Layer => Some(State::BoundaryLayer),
                _ => None,
            },
            State::BoundaryPlex => match kind {
                RecordKind::Layer => Some(State::BoundaryLayer),
                _ => None,
            },
            State::BoundaryLayer => match kind {
                RecordKind::Datatype => Some(State::BoundaryDatatype),
                _ => None,
            },
            State::BoundaryDatatype => match kind {
                RecordKind::Xy => Some(State::Properties),
                _ => None,
            },
            State::Path => match kind {
                RecordKind::ElFlags => Some(State::PathElFlags),
                RecordKind::Plex => Some(State::PathPlex),
                RecordKind::Layer => Some(State::PathLayer),
                _ => None,
            },
            State::PathElFlags => match kind {
                RecordKind::Plex => Some(State::PathPlex),
                RecordKind::Layer => Some(State::PathLayer),
                _ => None,
            },
            State::PathPlex => match kind {
                RecordKind::Layer => Some(State::PathLayer),
                _ => None,
            },
            State::PathLayer => match kind {
                RecordKind::Datatype => Some(State::PathDatatype),
                _ => None,
            },
            State::PathDatatype => match kind {
                RecordKind::PathType => Some(State::PathPathType),
                RecordKind::Width => Some(State::PathWidth),
                RecordKind::BgnExtn => Some(State::PathBgnExtn),
                RecordKind::EndExtn => Some(State::PathEndExtn),
                RecordKind::Xy => Some(State::Properties),
                _ => None,
            },
            State::PathPathType => match kind {
                RecordKind::Width => Some(State::PathWidth),
                RecordKind::BgnExtn => Some(State::PathBgnExtn),
                RecordKind::EndExtn => Some(State::PathEndExtn),
                RecordKind::Xy => Some(State::Properties),
                _ => None,
            },
            State::PathWidth => match kind {
                RecordKind::BgnExtn => Some(State::PathBgnExtn),
                RecordKind::EndExtn => Some(State::PathEndExtn),
                RecordKind::Xy => Some(State::Properties),
                _ => None,
            },
            State::PathBgnExtn => match kind {
                RecordKind::EndExtn => Some(State::PathEndExtn),
                RecordKind::Xy => Some(State::Properties),
                _ => None,
            },
            State::PathEndExtn => match kind {
                RecordKind::Xy => Some(State::Properties),
                _ => None,
            },
            State::Sref => match kind {
                RecordKind::ElFlags => Some(State::SrefElFlags),
                RecordKind::Plex => Some(State::SrefPlex),
                RecordKind::Sname => Some(State::SrefSname),
                _ => None,
            },
            State::SrefElFlags => match kind {
                RecordKind::Plex => Some(State::SrefPlex),
                RecordKind::Sname => Some(State::SrefSname),
                _ => None,
            },
            State::SrefPlex => match kind {
                RecordKind::Sname => Some(State::SrefSname),
                _ => None,
            },
            State::SrefSname => match kind {
                RecordKind::Strans => Some(State::SrefStrans),
                RecordKind::Xy => Some(State::Properties),
                _ => None,
            },
            State::SrefStrans => match kind {
                RecordKind::Mag => Some(State::SrefMag),
                RecordKind::Angle => Some(State::SrefAngle),
                RecordKind::Xy => Some(State::Properties),
                _ => None,
            },
            State::SrefMag => match kind {
                RecordKind::Angle => Some(State::SrefAngle),
                RecordKind::Xy => Some(State::Properties),
                _ => None,
            },
            State::SrefAngle => match kind {
                RecordKind::Xy => Some(State::Properties),
                _ => None,
            },
            State::Aref => match kind {
                RecordKind::ElFlags => Some(State::ArefElFlags),
                RecordKind::Plex => Some(State::ArefPlex),
                RecordKind::Sname => Some(State::ArefSname),
                _ => None,
            },
            State::ArefElFlags => match kind {
                RecordKind::Plex => Some(State::ArefPlex),
                RecordKind::Sname => Some(State::ArefSname),
                _ => None,
            },
            State::ArefPlex => match kind {
                RecordKind::Sname => Some(State::ArefSname),
                _ => None,
            },
            State::ArefSname => match kind {
                RecordKind::Strans => Some(State::ArefStrans),
                RecordKind::ColRow => Some(State::ArefColRow),
                _ => None,
            },
            State::ArefStrans => match kind {
                RecordKind::Mag => Some(State::ArefMag),
                RecordKind::Angle => Some(State::ArefAngle),
                RecordKind::ColRow => Some(State::ArefColRow),
                _ => None,
            },
            State::ArefMag => match kind {
                RecordKind::Angle => Some(State::ArefAngle),
                RecordKind::ColRow => Some(State::ArefColRow),
                _ => None,
            },
            State::ArefAngle => match kind {
                RecordKind::ColRow => Some(State::ArefColRow),
                _ => None,
            },
            State::ArefColRow => match kind {
                RecordKind::Xy => Some(State::Properties),
                _ => None,
            },
            State::Text => match kind {
                RecordKind::ElFlags => Some(State::TextElFlags),
                RecordKind::Plex => Some(State::TextPlex),
                RecordKind::Layer => Some(State::TextLayer),
                _ => None,
            },
            State::TextElFlags => match kind {
                RecordKind::Plex => Some(State::TextPlex),
                RecordKind::Layer => Some(State::TextLayer),
                _ => None,
            },
            State::TextPlex => match kind {
                RecordKind::Layer => Some(State::TextLayer),
                _ => None,
            },
            State::TextLayer => match kind {
                RecordKind::TextType => Some(State::TextTextType),
                _ => None,
            },
            State::TextTextType => match kind {
                RecordKind::Presentation => Some(State::TextPresentation),
                RecordKind::PathType => Some(State::TextPathType),
                RecordKind::Width => Some(State::TextWidth),
                RecordKind::Strans => Some(State::TextStrans),
                RecordKind::Xy => Some(State::TextXy),
                _ => None,
            },
            State::TextPresentation => match kind {
                RecordKind::PathType => Some(State::TextPathType),
                RecordKind::Width => Some(State::TextWidth),
                RecordKind::Strans => Some(State::TextStrans),
                RecordKind::Xy => Some(State::TextXy),
                _ => None,
            },
            State::TextPathType => match kind {
                RecordKind::Width => Some(State::TextWidth),
                RecordKind::Strans => Some(State::TextStrans),
                RecordKind::Xy => Some(State::TextXy),
                _ => None,
            },
            State::TextWidth => match kind {
                RecordKind::Strans => Some(State::TextStrans),
                RecordKind::Xy => Some(State::TextXy),
                _ => None,
            },
            State::TextStrans => match kind {
                RecordKind::Mag => Some(State::TextMag),
                RecordKind::Angle => Some(State::TextAngle),
                RecordKind::Xy => Some(State::TextXy),
                _ => None,
            },
            State::TextMag => match kind {
                RecordKind::Angle => Some(State::TextAngle),
                RecordKind::Xy => Some(State::TextXy),
                _ => None,
            },
            State::TextAngle => match kind {
                RecordKind::Xy => Some(State::TextXy),
                _ => None,
            },
            State::TextXy => match kind {
                RecordKind::TextString => Some(State::Properties),
                _ => None,
            },
            State::Node => match kind {
                RecordKind::ElFlags => Some(State::NodeElFlags),
                RecordKind::Plex => Some(State::NodePlex),
                RecordKind::Layer => Some(State::NodeLayer),
                _ => None,
            },
            State::NodeElFlags => match kind {
                RecordKind::Plex => Some(State::NodePlex),
                RecordKind::Layer => Some(State::NodeLayer),
                _ => None,
            },
            State::NodePlex => match kind {
                RecordKind::Layer => Some(State::NodeLayer),
                _ => None,
            },
            State::NodeLayer => match kind {
                RecordKind::NodeType => Some(State::NodeNodeType),
                _ => None,
            },
            State::NodeNodeType => match kind {
                RecordKind::Xy => Some(State::Properties),
                _ => None,
            },
            State::Box => match kind {
                RecordKind::ElFlags => Some(State::BoxElFlags),
                RecordKind::Plex => Some(State::BoxPlex),
                RecordKind::Layer => Some(State::BoxLayer),
                _ => None,
            },
            State::BoxElFlags => match kind {
                RecordKind::Plex => Some(State::BoxPlex),
                RecordKind::Layer => Some(State::BoxLayer),
                _ => None,
            },
            State::BoxPlex => match kind {
                RecordKind::Layer => Some(State::BoxLayer),
                _ => None,
            },
            State::BoxLayer => match kind {
                RecordKind::BoxType => Some(State::BoxBoxType),
                _ => None,
            },
            State::BoxBoxType => match kind {
                RecordKind::Xy => Some(State::Properties),
                _ => None,
            },
            State::Properties => match kind {
                RecordKind::PropAttr => Some(State::PropAttr),
                RecordKind::EndEl => Some(State::Elements),
                _ => None,
            },
            State::PropAttr => match kind {
                RecordKind::PropValue => Some(State::Properties),
                _ => None,
            },
            State::End => None,
        }
    }
}
