//! What is answered to a request.
use crate::hosts::is_known_host;
use crate::page_text::{PAGE, POLICY};
use bytes::{BufMut, Bytes};
use history::LastHour;
use http::{HeaderName, HeaderValue, Method, Request, StatusCode, header};
use http_server::{Response, Service};
use std::alloc::AllocError;

/// What a browser may do for every answer except the page: nothing.
const NOTHING: &str = "default-src 'none'; frame-ancestors 'none'";

/// The texts that are shown, of now.
#[derive(Clone, Copy)]
pub struct PageTexts<'a> {
    /// How the service stands, as JSON.
    pub status: &'a str,
    /// Its numbers, in Prometheus' text format 0.0.4.
    pub metrics: &'a str,
    /// What doesn't change while its program runs, as JSON.
    pub site: &'a str,
    /// The last hour.
    pub hour: LastHour<'a>,
}

/// Whoever answers requests by these texts.
#[derive(Drop)]
pub struct Pages<'a> {
    texts: PageTexts<'a>,
    /// By which names this machine is asked, beside its addresses.
    names: &'a [String],
    /// How many requests were answered.
    answered: u64,
}

/// One of the texts, or the page itself, which is a constant.
#[derive(Clone, Copy)]
enum Page {
    Index,
    Status,
    Metrics,
    Site,
    History,
}

impl<'a> Pages<'a> {
    pub fn new(texts: PageTexts<'a>, names: &'a [String]) -> Pages<'a> {
        Pages {
            texts,
            names,
            answered: 0,
        }
    }

    /// How many requests were answered.
    pub fn answered(&self) -> u64 {
        self.answered
    }

    fn answer(&self, request: &Request<Bytes>, response: &mut Response) -> Result<(), AllocError> {
        keep_private(response)?;
        match self.page_of(request) {
            Ok(page) => self.show(page, request, response),
            Err(status) => refuse(status, response),
        }
    }

    /// The text that is asked for, or why there is none: the method isn't GET or HEAD, the request is for another host, or there is
    /// no such path.
    fn page_of(&self, request: &Request<Bytes>) -> Result<Page, StatusCode> {
        if *request.method() != Method::GET && *request.method() != Method::HEAD {
            return Err(StatusCode::METHOD_NOT_ALLOWED);
        }
        if !self.is_for_us(request) {
            return Err(StatusCode::MISDIRECTED_REQUEST);
        }
        match request.uri().path() {
            "/" => Ok(Page::Index),
            "/status.json" => Ok(Page::Status),
            "/metrics" => Ok(Page::Metrics),
            "/site.json" => Ok(Page::Site),
            "/history.json" => Ok(Page::History),
            _ => Err(StatusCode::NOT_FOUND),
        }
    }

    /// Whether a request is for this machine: by its target, where that says so, else by its field Host.
    fn is_for_us(&self, request: &Request<Bytes>) -> bool {
        if let Some(host) = request.uri().host() {
            return is_known_host(host, self.names);
        }
        match request.headers().get(header::HOST) {
            Some(host) => match host.to_str() {
                Ok(host) => is_known_host(host, self.names),
                Err(_) => false,
            },
            None => false,
        }
    }

    fn show(
        &self,
        page: Page,
        request: &Request<Bytes>,
        response: &mut Response,
    ) -> Result<(), AllocError> {
        let json = HeaderValue::from_static("application/json");
        let nothing = HeaderValue::from_static(NOTHING);
        match page {
            Page::Index => {
                let kind = HeaderValue::from_static("text/html; charset=utf-8");
                put_text(response, kind, HeaderValue::from_static(POLICY), PAGE)
            }
            Page::Metrics => {
                let kind = HeaderValue::from_static("text/plain; version=0.0.4; charset=utf-8");
                put_text(response, kind, nothing, self.texts.metrics)
            }
            Page::Status => put_text(response, json, nothing, self.texts.status),
            Page::Site => put_text(response, json, nothing, self.texts.site),
            Page::History => {
                let query = request.uri().query().unwrap_or("");
                let text = self.texts.hour.text(query)?;
                put_text(response, json, nothing, text.as_str())
            }
        }
    }
}

impl Service for Pages<'_> {
    ghost answers = { λ old request response new. Unit {0} };

    fn call(
        &mut self,
        request: &Request<Bytes>,
        response: &mut Response,
    ) -> Result<(), AllocError> {
        self.answer(request, response)?;
        self.answered = self.answered.saturating_add(1);
        Ok(())
    }
}

/// Puts a text of this kind into an answer, with what a browser may do for it. A text that isn't there, since memory was refused, is
/// there later.
fn put_text(
    response: &mut Response,
    kind: HeaderValue,
    policy: HeaderValue,
    text: &str,
) -> Result<(), AllocError> {
    if text.is_empty() {
        return refuse(StatusCode::SERVICE_UNAVAILABLE, response);
    }
    response.status = StatusCode::OK;
    response.add_header(header::CONTENT_TYPE, kind)?;
    response.add_header(header::CONTENT_SECURITY_POLICY, policy)?;
    response.body.put_slice(text.as_bytes())
}

/// Nothing between here and there keeps an answer, no page of another place shows it, and none shares a window with it.
fn keep_private(response: &mut Response) -> Result<(), AllocError> {
    response.add_header(header::CACHE_CONTROL, HeaderValue::from_static("no-store"))?;
    response.add_header(
        header::X_CONTENT_TYPE_OPTIONS,
        HeaderValue::from_static("nosniff"),
    )?;
    response.add_header(
        header::REFERRER_POLICY,
        HeaderValue::from_static("no-referrer"),
    )?;
    response.add_header(
        HeaderName::from_static("cross-origin-resource-policy"),
        HeaderValue::from_static("same-origin"),
    )?;
    response.add_header(
        HeaderName::from_static("cross-origin-opener-policy"),
        HeaderValue::from_static("same-origin"),
    )
}

/// Answers without a text, by this status.
fn refuse(status: StatusCode, response: &mut Response) -> Result<(), AllocError> {
    response.status = status;
    response.add_header(
        header::CONTENT_SECURITY_POLICY,
        HeaderValue::from_static(NOTHING),
    )?;
    if status == StatusCode::METHOD_NOT_ALLOWED {
        response.add_header(header::ALLOW, HeaderValue::from_static("GET, HEAD"))?;
    }
    Ok(())
}
